// Theorems about the rows of a listing as boxes within boxes, and no code: document 02's C-24 as laws of the definitions that the contracts of `list`, `list_flat` and `list_cper` cite.
#![tactic(auto)]
