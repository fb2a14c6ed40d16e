// Definitions and laws alone: specs/ has the records in a lent room, proofs/ what is proved of them.
#![tactic(auto)]
