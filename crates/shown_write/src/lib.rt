// Writing is exact: rows are written exactly if they mean a list that a file may say, as that list's canonical text, and reading gives the list back. Theorems, no code.
#![tactic(auto)]
