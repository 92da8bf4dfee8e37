// Floats that are whole numbers, and floats that are numbers: theorems only.
#![tactic(auto)]
