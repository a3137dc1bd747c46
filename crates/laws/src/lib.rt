#![tactic(auto)]

// No code: definitions and laws that belong to no layer, for the specifications and proofs of the others.
