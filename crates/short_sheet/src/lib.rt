// The short sheets: theorems in specs/, and no function.

#![tactic(auto)]
