// The laws of the count: theorems in specs/, and no function.

#![tactic(auto)]
