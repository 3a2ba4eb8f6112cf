// The word of a Clifford: definitions and theorems in specs/, and no function.

#![tactic(auto)]
