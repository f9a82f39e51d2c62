// What proofs by hand over lent slices have in common: walks of a function's compiled form. The checker covers such functions by itself, so no function needs one today. Lemmas only.
#![tactic(auto)]
