// Theory only: walks, least totals and negative cycles; that Bellman-Ford, in place and by synchronous passes, Dijkstra and Floyd-Warshall find
// them; routes along parents; networks with other weights, or with the same least weights.
// Knows nothing of cells or code. Rests on lists.
#![tactic(auto)]
