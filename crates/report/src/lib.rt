//! From the bytes of a sheet to the text that is printed for it.

#![tactic(auto)]

/// A sheet under one policy.
pub mod judge;
/// Which line is written.
pub mod line;
/// From an input to an output.
pub mod print;
/// A sheet under four policies.
pub mod report;
