// What the program reads and prints, as bytes: the job stream and the printout, with their tables of examples; there is no code of its own.
#![tactic(auto)]
