// Theorems about the model's definitions alone. It has no code.
#![tactic(auto)]
