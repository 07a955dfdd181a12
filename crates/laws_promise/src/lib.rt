// What the promises say: demands 1 to 3 over the lent tables, in the customer's words, and the overlay's file. Everything is in specs/. No code.
#![tactic(auto)]
