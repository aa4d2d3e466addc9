// How a record is spelled as a line, by producing rules, and its canonical text; the theorems that join them to reading. No code.
#![tactic(auto)]
