// Theorems about the listing of a CPER, and no code: demand 3 of document 00, as C-15 of document 02 reads it, and C-15 itself.
#![tactic(auto)]
