// How many edges a look reads (02, Ask 8): edges in the order of their lower ends. Everything is in specs/. No code.
#![tactic(auto)]
