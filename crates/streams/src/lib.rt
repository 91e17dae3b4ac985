//! What the programs share at their edge: how input is read, and how a failure of the standard streams, or of memory, is told.

#![tactic(auto)]

/// How a program ends.
pub mod ending;
/// What can fail at a program's edge.
pub mod failure;
/// The first bytes of an input.
pub mod reading;
