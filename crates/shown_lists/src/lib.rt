// Which lists of records a file may say, by producing rules, and the theorems that join them to the run of `advance`. No code.
#![tactic(auto)]
