// The proof of demand 3 over the definitions that the contracts of `monitor` cite. It has no code of its own.
#![tactic(auto)]
