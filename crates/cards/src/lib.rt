#![tactic(auto)]

// Cards of a net: the net is judged first. No function: definitions and laws.
