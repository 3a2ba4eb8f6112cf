// Four-by-four unitaries, the plain gates, and the six-by-six form: definitions and theorems in specs/, and no function.

#![tactic(auto)]
