// Theory: what the results of two requests have in common. Theorems beside the demands, about the same definitions.
// Rests on demands and saved.
#![tactic(auto)]
