// What demand 3 shuts out: wrong lists for document 01's example, each refused by one of its fields; there is no code of its own.
#![tactic(auto)]
