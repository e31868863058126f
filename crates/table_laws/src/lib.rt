// Laws of the table of wells and of the build over its live slots; there is no code of its own.
#![tactic(auto)]
