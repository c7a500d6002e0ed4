// Theorems only: what a refusal is, of every entry point (demand 1).
#![tactic(auto)]
