// The laws of the overlay file: everything is in specs/. No code.
#![tactic(auto)]
