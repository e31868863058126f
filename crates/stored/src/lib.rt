// The stored tree: the bytes of its file, the tests that a tree has to pass, and the complete outcome of writer and loader, with a table of examples; there is no code of its own.
#![tactic(auto)]
