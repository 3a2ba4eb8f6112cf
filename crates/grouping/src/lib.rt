// How the rows of an orthogonal operator group: theorems in specs/, and no function.

#![tactic(auto)]
