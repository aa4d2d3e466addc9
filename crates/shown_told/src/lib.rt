// What the lines of a file say, one after the other, and that this is exactly what the law lets them say: definitions and theorems, no code.
#![tactic(auto)]
