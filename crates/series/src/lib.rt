// Definitions and laws alone: specs/ has the polynomials, proofs/ what is proved of them.
#![tactic(auto)]
