//! One trial of a table on some CPUs: its slots one by one, up to the first instant that decides.

#![tactic(auto)]

/// The jobs that a slot finishes.
pub mod active;
/// What an event makes of a place.
pub mod arriving;
/// What is kept of each place from event to event.
pub mod calendar;
/// The largest offset and the hyperperiod of a table.
pub mod cycle;
/// The next event of a task.
pub mod events;
/// Rules 1 and 2.
pub mod opening;
/// Slots, one by one.
pub mod slots;
/// The start of a trial.
pub mod starting;
/// What a trial keeps, and what a run of slots comes to.
pub mod trial;
/// What a run knows of its instant from slot to slot.
pub mod watch;
/// What rule 3 leaves of the jobs.
pub mod working;
