// That of two answers of `intersect_arcs` the finer one never loses what the coarser one brackets. No code: see specs/ and proofs/.
#![tactic(auto)]
