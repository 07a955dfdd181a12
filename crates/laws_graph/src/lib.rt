// Laws of the graph: everything is in specs/. No code.
#![tactic(auto)]
