// That `check` and `read` answer what the lines of a file say, and so as the law gives it: definitions and theorems, no code.
#![tactic(auto)]
