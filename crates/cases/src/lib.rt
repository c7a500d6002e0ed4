// Theorems only: cases on a test, tests over a list and over a whole table, tables of figures.
#![tactic(auto)]
