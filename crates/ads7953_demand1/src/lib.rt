// Theorems only: demand 1 of the ADS7953.
#![tactic(auto)]
