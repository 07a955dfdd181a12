// Melting cells together (02, Ask 12): edges that separate nothing dropped, and what stays. Everything is in specs/. No code.
#![tactic(auto)]
