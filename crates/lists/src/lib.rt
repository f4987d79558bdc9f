// Lists: their members, a property or a test of each, and the list of what a function gives. Definitions
// and laws alone.

#![tactic(auto)]
