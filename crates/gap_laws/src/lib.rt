// Laws of the gap to a box, and the words for boxes that hold the rows of a level's domains; there is no code of its own.
#![tactic(auto)]
