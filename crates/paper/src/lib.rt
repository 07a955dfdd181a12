// Document 01 as definitions: everything is in specs/. No code.
#![tactic(auto)]
