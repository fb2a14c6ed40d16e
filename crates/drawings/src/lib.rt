// The drawings of document 01 as theorems of the definitions. No code: see specs/ and proofs/.
#![tactic(auto)]
