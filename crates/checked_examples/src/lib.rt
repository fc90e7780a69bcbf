// No code: specs/ states document 01's twelve checked examples about the definitions of the crates below, and proofs/ computes them.
#![tactic(auto)]
