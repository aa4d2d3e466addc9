// That the starts in rows, and what the line reader hands out, are the places that the law gives the fields: theorems, no code.
#![tactic(auto)]
