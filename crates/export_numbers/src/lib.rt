// What the exports share: C's numbers as the library's, and the library's answers as numbers in lent slices.
#![tactic(auto)]

mod numbers;
mod out;

pub use numbers::{arc, curve};
pub use out::{SHORT, place, refuse, write, write_answer};
