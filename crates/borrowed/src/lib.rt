// No code: specs/ has the steps that proofs by hand share, over a struct of plain data behind a `&mut`. Nothing stands on it at
// present; what specs/ states stays.
#![tactic(auto)]
