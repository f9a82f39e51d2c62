// Reading a record list in one pass with a small state: definitions and theorems only.
#![tactic(auto)]
