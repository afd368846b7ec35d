// Theorems about the receiver, and no code: however a region is cut into pieces, it tells the level-0 part of the region's listing
// (document 02, C-11).
#![tactic(auto)]
