#![tactic(auto)]

// The causal process of a run. No function: definitions and theorems.
