// Theorems only: demand 2 on the bench.
#![tactic(auto)]
