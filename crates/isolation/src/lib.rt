// Theorems only: what no other party can change (document 01, "Demand 3 written out").
#![tactic(auto)]
