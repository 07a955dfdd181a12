// The laws of the plane: everything is in specs/. No code.
#![tactic(auto)]
