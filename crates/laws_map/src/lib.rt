// What a map file that passes keeps, and that a file that keeps it passes: everything is in specs/. No code.
#![tactic(auto)]
