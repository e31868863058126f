// Demand 3 as one statement about the lists and counts that a build hands back, and its proof; there is no code of its own.
#![tactic(auto)]
