// The overlay file both ways: everything is in specs/. No code.
#![tactic(auto)]
