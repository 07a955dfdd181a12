// Which map comes first: the overlay's refusals from the check (02, Ask 6); files in another order, one bad file, the empty map (Ask 11); two maps as three with an empty third (Ask 13). Everything is in specs/. No code.
#![tactic(auto)]
