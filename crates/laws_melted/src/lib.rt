// What the melted tables keep, in what comes out of melting's promise (02, Asks 12 and 13). Everything is in specs/. No code.
#![tactic(auto)]
