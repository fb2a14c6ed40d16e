// That a finer hunt never loses what a coarser one brackets. No code: see specs/ and proofs/.
#![tactic(auto)]
