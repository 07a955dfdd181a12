// Which refusal is given: of a list of rules the first that is broken. Everything is in specs/. No code.
#![tactic(auto)]
