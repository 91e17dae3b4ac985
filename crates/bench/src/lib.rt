//! The bench: a table of tasks, a policy and a trial, changed by its calls and nothing else; and the lines that are printed.

#![tactic(auto)]

/// The bench.
pub mod bench;
/// Why a sheet is not judged.
pub mod fault;
/// The lines of verdicts and faults.
pub mod lines;
/// Where a bench stands, and what it tells then.
pub mod mode;
/// The calls that make a bench and fill its table: new, enter, withdraw, load, save.
pub mod table_calls;
/// A line of a word and numbers in a buffer.
pub mod text;
/// The calls of a trial: start, run, halt, verdict, set, line.
pub mod trial_calls;
/// The verdicts.
pub mod verdict;
