//! Protected memory: bytes in frames of 4,096, each frame marked ordinary or secure.
//!
//! `protected` says what every protected memory is, `flat` and `paired` are the two kinds, and `zeroing` fills a
//! frame with zeros over any of them.
#![tactic(auto)]

pub mod flat;
pub mod paired;
pub mod protected;
pub mod zeroing;
