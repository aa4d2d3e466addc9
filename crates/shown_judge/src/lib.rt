// Which verdict judging gives, by the lists of records that the two files say: definitions and theorems, no code.
#![tactic(auto)]
