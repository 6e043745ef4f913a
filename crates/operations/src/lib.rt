#![tactic(auto)]

// What each operation of the engine comes to, and what is demanded of them. No function: definitions and theorems.
