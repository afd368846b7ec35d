// Theorems on the definitions of a CPER: its kept sections and its normal form. There is no code.
#![tactic(auto)]
