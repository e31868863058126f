// The definition of the build (document 01) and its tables of examples; there is no code of its own.
#![tactic(auto)]
