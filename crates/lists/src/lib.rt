// Theory only: tests, lists and what is written to a lent buffer, where the toolchain's library has no law.
// Rests on nothing.
#![tactic(auto)]
