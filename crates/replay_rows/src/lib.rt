// Stored answers, a row each: how the words of a row are read, when an answer agrees with a row, and how that is counted.
// bench/src/bin/samples.rs says the form of a row.
#![tactic(auto)]

pub mod answer;
pub mod call;
pub mod lent;
pub mod rows;
pub mod sample;
pub mod tally;
