// The trial cuts of document 01 that are marked to be proved: theorems in specs/, and no function.

#![tactic(auto)]
