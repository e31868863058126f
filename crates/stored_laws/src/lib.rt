// Laws of the stored tree; there is no code of its own.
#![tactic(auto)]
