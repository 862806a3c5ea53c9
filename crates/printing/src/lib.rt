// Theory only: which request the programs' bytes make, and what is printed of its outcome and of its log, byte by byte.
// Rests on text, limits and demands.
#![tactic(auto)]
