//! Worked examples of the endless schedule: one table (specs/Rows.antt), each row with a name that says what it shows. The
//! contract of `worked_examples` says that every row is right, by the definitions that the contracts of the other crates
//! cite, so that the crate is refused if one row is wrong. And a client of the bench, which reads its verdict off the law.

#![tactic(auto)]

/// A client of the bench.
pub mod client;

ghost use Rattle.examples.specs.Rows.{AllRight};

/// Every row of the table is right.
pub fn worked_examples()
    ensures { AllRight }
{}
