// Laws of the overlay of a list of maps: everything is in specs/. No code.
#![tactic(auto)]
