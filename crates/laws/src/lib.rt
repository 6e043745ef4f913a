#![tactic(auto)]

// Laws on lists and numbers that every layer above cites; no function.
