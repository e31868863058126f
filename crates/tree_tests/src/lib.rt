// The tests of a stored tree in the order in which a reader meets its rows and records, and that they come to `sound` and `well_formed`; there is no code of its own.
#![tactic(auto)]
