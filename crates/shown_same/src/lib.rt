// Comparing is exact: two accepted files are called the same exactly if they say equal lists. Theorems, no code.
#![tactic(auto)]
