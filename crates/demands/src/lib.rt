// Theory only: what a request's run answers and leaves in every lent buffer, and the demands, proved of it.
// Rests on answers, machine, plans, limits, intake, runner, methods, depths and graph.
#![tactic(auto)]
