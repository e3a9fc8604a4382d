// The families of profiles: one rule for each, what an accepted set of each is, what the leaves of its walk and of one address promise, and the symbols of a
// block. No code.
#![tactic(auto)]
