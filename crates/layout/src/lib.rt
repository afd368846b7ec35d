// Layouts as tables of fields: their definitions and laws, for any table. There is no code.
#![tactic(auto)]
