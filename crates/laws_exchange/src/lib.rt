// Which map comes first, in what comes out of the overlay's promise: the maps in another order, the empty map, an empty third map (02, Asks 11 and 13). Everything is in specs/. No code.
#![tactic(auto)]
