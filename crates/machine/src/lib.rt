//! A running machine: registers that were set up before, eight threads, and the calls that they make over one
//! protected memory.
//!
//! `setup` has the registers, `machine` the calls one by one, `run` whole lists of them.
#![tactic(auto)]

pub mod calls;
mod context;
pub mod machine;
pub mod refusal;
pub mod run;
pub mod setup;
mod threads;
