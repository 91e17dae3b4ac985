//! Policies: what orders the jobs, and which jobs a slot runs.

#![tactic(auto)]

/// How old a job is.
pub mod age;
/// The jobs of a slot that run, chosen from their keys.
pub mod choosing;
/// Earliest deadline first.
pub mod deadline;
/// Which jobs a slot runs.
pub mod dispatch;
/// Heavy-first: its threshold, its keys and the layer.
pub mod heavy;
/// The jobs that ran run on, where no other stands before one of them.
pub mod keeping;
/// Heavy-first is a policy.
pub mod layer;
/// What a policy is.
pub mod policy;
/// Fixed priorities.
pub mod rank;
/// The instants that ages count from.
pub mod release;
/// The set of the tasks that pass a test.
pub mod sets;
/// The jobs that ask for a slot.
pub mod slot;
/// The members of a set of tasks, one after another.
pub mod walk;
