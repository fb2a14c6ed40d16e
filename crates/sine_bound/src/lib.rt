// Definitions and laws alone: specs/ says what is promised of the sine and the cosine, proofs/ has the proof.
#![tactic(auto)]
