// Theory only: the greatest depth of each method's plan, for every header. No run has to find it.
// Rests on machine, plans and what methods has of instructions on named cells.
#![tactic(auto)]
