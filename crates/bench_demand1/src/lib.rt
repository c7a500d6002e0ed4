// Theorems only: demand 1 on the bench.
#![tactic(auto)]
