// The record list of a design, and the verdict on a record list: definitions and theorems only.
#![tactic(auto)]
