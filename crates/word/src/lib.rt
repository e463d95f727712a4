// The leaves of the machine: what an instruction does to the 32 bits of a cell, a function for each. Vb is `b`, the value below the top,
// and Vt is `t`, the top one. Each answers for all bits, and an instruction's promise is the very function that its row has in `rules`; that of ADD and
// SUB is a sum over whole numbers, of which one function gives the word and one tells whether a word stands for it.
#![tactic(auto)]

pub mod bits;
pub mod integers;
pub mod logic;
pub mod tests;
