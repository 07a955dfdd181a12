// The height of tide (02, Ask 5): everything is in specs/. No code.
#![tactic(auto)]
