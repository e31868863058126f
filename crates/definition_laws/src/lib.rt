// Laws of the definition of the build; there is no code of its own.
#![tactic(auto)]
