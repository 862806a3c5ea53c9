// Theory only: the plan of a method, carried out on cells laid from a request, computes what `graph` calls shortest.
// Rests on machine, plans and graph.
#![tactic(auto)]
