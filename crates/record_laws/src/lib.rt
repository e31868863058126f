// Laws of the cut record, and the words that the depth-first engine's contracts are written in; there is no code of its own.
#![tactic(auto)]
