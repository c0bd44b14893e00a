// What Gomoku is, by its points, and what is true of it. The code that plays it stands above this crate.
#![tactic(auto)]

ghost use Rattle.std.specs.Prelude.{◌≡◌};
ghost use Rattle.gomoku_theory.specs.Search.{columns_of, rows_of};

use side::Side;

// columns of the board, and its rows
pub const SIZE: usize = 15;

// along a row, five points begin at one of so many
pub const BEGINS: usize = 11;

// What stands on a point of the board.
// No `Option<Side>`: of a point that may lie outside, `Option<Option<Side>>` would tell free from none only by depth.
#[derive(Clone, Copy, PartialEq, Eq, Debug)]
pub enum Point {
    Free,
    Stone(Side),
}

// How a line runs: along a column, along a row, or aslant.
#[derive(Clone, Copy)]
pub enum Heading {
    Upright,
    Level,
    Rising,
    Falling,
}

impl Heading {
    pub fn columns(self) -> usize
        ensures { result ≡ columns_of self }
    {
        match self {
            Heading::Upright => SIZE,
            Heading::Level | Heading::Rising | Heading::Falling => BEGINS,
        }
    }

    pub fn rows(self) -> usize
        ensures { result ≡ rows_of self }
    {
        match self {
            Heading::Level => SIZE,
            Heading::Upright | Heading::Rising | Heading::Falling => BEGINS,
        }
    }
}
