// The demands, and what a request promises besides, as theorems over the definitions that the contracts cite. This crate has no function: its
// specs/ say what is promised, its proofs/ show it.
#![tactic(auto)]
