// What the build makes passes the tests of a stored tree, stands in its lists as that tree, and is written; there is no code of its own.
#![tactic(auto)]
