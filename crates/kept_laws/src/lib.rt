// Laws of what a search keeps, the first rows by an order; there is no code of its own.
#![tactic(auto)]
