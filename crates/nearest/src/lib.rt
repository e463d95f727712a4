// What "rounded once, to binary32 (IEEE 754, nearest, ties to even)" means, and what a FLOAT's bits say to EQUAL and ISNIL, to FTOI and to the dwell reader.
// This crate has no function: specs/ has the statements' definitions, over whole numbers and bits alone, and proofs/ the theorems: the four F operations,
// CMPF and EQUAL in proofs/Cells.antt, EQUAL and ISNIL of any bits in proofs/Equal.antt, decimals, ITOF and FTOI in proofs/Conversions.antt, tenths in
// proofs/Tenths.antt.
#![tactic(auto)]
