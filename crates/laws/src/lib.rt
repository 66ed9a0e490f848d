// Laws of the model's definitions that both the engine's proofs and the theorems cite. It has no code.
#![tactic(auto)]
