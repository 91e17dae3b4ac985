//! A few tests that run the bench as its users call it, one of a choice by itself, and a report over streams that fail. All
//! that the calls promise is proved, for any policy, from the trait's bound alone; here they are made, under each kind of
//! policy, and a reader sees what comes of them.

#![tactic(auto)]

/// The tests of a report over streams that fail.
#[cfg(test)]
mod edge;
/// The tests of the bench.
#[cfg(test)]
mod tests;
