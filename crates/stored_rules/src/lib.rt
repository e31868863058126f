// A tree that passes the tests of a stored tree has demand 3's rules where it is handed out; there is no code of its own.
#![tactic(auto)]
