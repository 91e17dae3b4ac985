//! Tasks: what is entered for one, the bounds that every task keeps, the table of tasks, and the refusals with their numbers.

#![tactic(auto)]

/// The checks of figures by themselves.
pub mod checks;
/// A table is made, is looked at, and takes entries.
pub mod entering;
/// What is handed in for a task.
pub mod entry;
/// The refusals and their numbers.
pub mod refusal;
/// The table of tasks.
pub mod table;
/// A task, and what it answers of its figures.
pub mod task;
/// What holds of tables in general.
pub mod theorems;
/// A table lets tasks go.
pub mod withdrawing;
