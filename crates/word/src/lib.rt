// No code: specs/ has the definitions of words by their bits, proofs/ their laws, each said once for the layers above.
#![tactic(auto)]
