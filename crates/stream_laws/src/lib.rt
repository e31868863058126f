// Laws of the job stream and of the printout; there is no code of its own.
#![tactic(auto)]
