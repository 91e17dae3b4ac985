//! Timing sheets: what their bytes tell, a number of CPUs and a table of tasks, or the fault of the first bad record and its place; and how a table is written as a sheet.

#![tactic(auto)]

/// Text that is written into a buffer.
pub mod buffer;
/// The decoding of sheets.
pub mod decode;
/// The encoding of tables as sheets.
pub mod encode;
/// The faults of sheets.
pub mod fault;
/// What holds of sheets in general.
pub mod theorems;
