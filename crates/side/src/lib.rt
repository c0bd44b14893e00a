// The two sides of a game. First begins, and they alternate.
#![tactic(auto)]

ghost use Rattle.std.specs.Prelude.{◌≡◌, Some};
ghost use Rattle.side.specs.TwoSides.{opponent, side_word, of_side, with_side};

use std::fmt;

#[derive(Clone, Copy, PartialEq, Eq, Debug)]
pub enum Side {
    First,
    Second,
}

impl Side {
    pub fn other(self) -> Side
        ensures { result ≡ opponent self }
    {
        match self {
            Side::First => Side::Second,
            Side::Second => Side::First,
        }
    }
}

impl fmt::Display for Side {
    ghost output = { λ s. Some (side_word s) };

    fn fmt<W: fmt::Write>(&self, f: &mut fmt::Formatter<W>) -> fmt::Result {
        f.write_str(match self {
            Side::First => "first",
            Side::Second => "second",
        })
    }
}

// One of a thing for each side.
#[derive(Clone, Copy, PartialEq, Eq, Debug)]
pub struct PerSide<T> {
    pub first: T,
    pub second: T,
}

impl<T> PerSide<T> {
    pub fn of(&self, side: Side) -> &T
        ensures { result.now ≡ of_side side self.now }
    {
        match side {
            Side::First => &self.first,
            Side::Second => &self.second,
        }
    }
}

impl<T: Copy> PerSide<T> {
    // The same, but for the thing of one side.
    pub fn with(self, side: Side, thing: T) -> PerSide<T>
        ensures { result ≡ with_side side thing self }
    {
        match side {
            Side::First => PerSide {
                first: thing,
                ..self
            },
            Side::Second => PerSide {
                second: thing,
                ..self
            },
        }
    }
}
