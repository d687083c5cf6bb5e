// Rules for proofs by hand over lent slices of structs: no code. Inside the library.
#![tactic(auto)]
