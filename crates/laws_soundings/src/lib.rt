// Soundings by cell (02, Ask 3): the cell of a sounding, counts in batches. Everything is in specs/. No code.
#![tactic(auto)]
