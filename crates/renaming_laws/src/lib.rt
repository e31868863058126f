// That a tree does not depend on what its rows are called; there is no code of its own.
#![tactic(auto)]
