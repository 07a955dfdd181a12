// Where a sounding lies, in what comes out of the overlay's promise: its labels are those stored for that face (02, Ask 3). Everything is in specs/. No code.
#![tactic(auto)]
