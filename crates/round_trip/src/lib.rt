// Files to sheets and back, and text to text: theorems in specs/, and no function.

#![tactic(auto)]
