// Theorems about record headers, and no code: laws of the definitions that the contracts of `judge`, `decode` and `encode` cite (demand 2 of document 00).
#![tactic(auto)]
