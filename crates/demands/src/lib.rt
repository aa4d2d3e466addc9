// The three demands and document 01's tables, each sentence a statement over what the contracts of the public functions allow. Theorems, no code.
#![tactic(auto)]
