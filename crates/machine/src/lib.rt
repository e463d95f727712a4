// The machine: one step, and a run of steps. A step first decides what it does or why it is refused, then carries that out.
#![tactic(auto)]

mod addresses;
mod carry;
mod cells;
mod commit;
mod decide;
mod effects;
mod families;
mod panel;
mod plans;
mod records;
pub mod run;
mod stack;
pub mod step;
