// Theorems only: the figures that document 01 marks M, and those of document 02, No. 1 and No. 2.
#![tactic(auto)]
