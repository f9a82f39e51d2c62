// The main page: what is proved of files, as bytes. Definitions and theorems only; `specs/` has the words, `proofs/Main.antt` the theorems.
#![tactic(auto)]
