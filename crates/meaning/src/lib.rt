// What the rules make of readings and rulings: definitions, and what is promised of every run of calls.
#![tactic(auto)]

use side::PerSide;
use verdict::Verdict;

// What is told of a game: its verdict, none while it is open, its number of turns, and what is left for each side.
#[derive(Clone, Copy, PartialEq, Eq, Debug)]
pub struct Told {
    pub verdict: Option<Verdict>,
    pub turns: u16,
    pub lefts: PerSide<u32>,
}
