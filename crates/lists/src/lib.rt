// Definitions and laws on lists that the other crates cite; there is no code of its own.
#![tactic(auto)]
