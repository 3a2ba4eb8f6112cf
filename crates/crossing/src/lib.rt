// The stretches of a gate list and the fewest letters Z of each: definitions and theorems in specs/, and no function.

#![tactic(auto)]
