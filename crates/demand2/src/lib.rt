// Theorems only: what is claimed of one request (demand 2).
#![tactic(auto)]
