// Choices, which definitions are made of: theorems only.
#![tactic(auto)]
