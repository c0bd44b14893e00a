// Banks of players: one player, two banks together, and a bench filled when the program runs.
#![tactic(auto)]

mod many;
mod one;
mod two;

pub use many::{Bench, Unseated};
pub use one::Alone;
pub use two::TwoBanks;

// the most players that a bank holds
const MOST: usize = 65_535;
