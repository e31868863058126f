// Laws of what the programs keep and reload; there is no code of its own.
#![tactic(auto)]
