//! The translation of one access: nested radix tables, reference and change bits, and the secure memory facility.
#![tactic(auto)]

pub mod access;
mod datum;
pub mod fault;
mod fault_text;
pub mod fields;
pub mod operand;
mod partition;
mod process;
mod reach;
pub mod registers;
mod tables;
mod walk;
pub mod widths;
