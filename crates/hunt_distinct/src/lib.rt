// That some hunt lists two hits none of whose numbers is the same, so that no build that copies a bracket's point meets the contract. No code: see specs/ and proofs/.
#![tactic(auto)]
