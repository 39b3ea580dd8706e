// Definitions and laws of flat tickets: specs/ and proofs/. No code.
#![tactic(auto)]
