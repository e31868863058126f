// Laws of the square root of the definition; there is no code of its own.
#![tactic(auto)]
