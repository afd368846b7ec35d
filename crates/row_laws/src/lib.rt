// Theorems about the rows of a listing, and no code: what a row says of its record is what a decode of the record's header tells
// (document 02, C-17).
#![tactic(auto)]
