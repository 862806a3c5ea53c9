// Theory only: what document 01 says in numbers, as facts about the definitions that the contracts cite, proved by computing them.
// Rests on demands and planner.
#![tactic(auto)]
