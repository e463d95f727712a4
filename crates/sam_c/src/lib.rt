// The calls for C, as include/sam.h has them: numbers and lent memory only. A slice is a pointer and then a count of elements. A `told` of
// another length than the call's is 31 before anything else; registers of another length than nine are a 10 in 10's place.
// Stays: each call's parameters, slice by slice, and its number as a u32: they are the C interface (include/sam.h).
#![tactic(auto, unfolding(crate::specs::Calls::of_length, crate::specs::Calls::not_registers_saved))]

mod ask_why;
mod assemble;
mod check_depths;
mod forget_oldest;
mod list;
mod load;
mod pack;
mod read_dwell;
mod registers;
mod reset;
mod run;
mod save;
mod step;
mod step_back;
mod told;
mod translate;
mod unpack;
