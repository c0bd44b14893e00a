// How a game stands: its turns and its verdict, with the verdict's number.
#![tactic(auto)]

ghost use Rattle.std.specs.Prelude.{◌≡◌, if◌then◌else◌, Ok, Err, Some, codes};
ghost use Rattle.verdict.specs.Verdicts.{result_number, verdict_number, standing_number, is_listed, standing_of, Numbered, NumbersRight};

use side::Side;
use std::error::Error;
use std::fmt;

// The code of a turn in which the flag fell: a number and no variant, since a turn's 16 bits in a record hold it as any code.
pub const NO_MOVE: u16 = 65_535;

// One turn: the code that was answered, and the milliseconds that it took.
#[derive(Clone, Copy, PartialEq, Eq, Debug)]
pub struct Turn {
    pub code: u16,
    pub reading: u32,
}

// Not `Option<Side>`: `Verdict::Flag(None)` would not say that a game was drawn.
#[derive(Clone, Copy, PartialEq, Eq, Debug)]
pub enum Outcome {
    WonBy(Side),
    Drawn,
}

// What ended a game, and for whom.
#[derive(Clone, Copy, PartialEq, Eq, Debug)]
pub enum Verdict {
    // the game's own rules
    Rules(Outcome),
    // a fallen flag
    Flag(Outcome),
    // an illegal move, won by the other side
    Illegal(Side),
    // a resignation, won by the other side
    Resignation(Side),
    // the turn limit: a draw
    TurnLimit,
    // a ruling, won by the other side
    Ruling(Side),
}

// A number that no verdict has.
#[derive(Clone, Copy, PartialEq, Eq, Debug)]
pub struct Unlisted;

impl fmt::Display for Unlisted {
    ghost output = { λ _. Some (codes "no verdict has this number") };

    fn fmt<W: fmt::Write>(&self, f: &mut fmt::Formatter<W>) -> fmt::Result {
        f.write_str("no verdict has this number")
    }
}

impl Error for Unlisted {}

fn result_of(outcome: Outcome) -> u8
    ensures { result ≡ result_number outcome }
{
    match outcome {
        Outcome::WonBy(Side::First) => 1,
        Outcome::WonBy(Side::Second) => 2,
        Outcome::Drawn => 3,
    }
}

impl Verdict {
    // 10 × reason + result. A method: `u8::from(verdict)` would not say which number.
    pub fn number(self) -> u8
        ensures { result ≡ verdict_number self }
    {
        match self {
            Verdict::Rules(outcome) => 10 + result_of(outcome),
            Verdict::Flag(outcome) => 20 + result_of(outcome),
            Verdict::Illegal(winner) => 30 + result_of(Outcome::WonBy(winner)),
            Verdict::Resignation(winner) => 40 + result_of(Outcome::WonBy(winner)),
            Verdict::TurnLimit => 50 + result_of(Outcome::Drawn),
            Verdict::Ruling(winner) => 60 + result_of(Outcome::WonBy(winner)),
        }
    }
}

// The number that a record has for a game: 0 while it is open.
// Functions, this and `standing_of`: no `From` or `TryFrom` can stand here between an `Option` and a `u8`.
pub fn standing_number(standing: Option<Verdict>) -> u8
    ensures { result ≡ standing_number standing }
{
    match standing {
        Some(verdict) => verdict.number(),
        None => 0,
    }
}

impl TryFrom<u8> for Verdict {
    type Error = Unlisted;

    ghost try_from_gives = { Numbered };

    fn try_from(number: u8) -> Result<Verdict, Unlisted> {
        standing_of(number)?.ok_or(Unlisted)
    }
}

// How a game with that number in its record stands.
#[tactic(auto, using(crate::proofs::Numbers::numbers_right))]
pub fn standing_of(number: u8) -> Result<Option<Verdict>, Unlisted>
    ensures value { result ≡ (if is_listed number then Ok (standing_of number) else Err (record {})) }
    ensures numbers { NumbersRight }
{
    match number {
        0 => Ok(None),
        11 => Ok(Some(Verdict::Rules(Outcome::WonBy(Side::First)))),
        12 => Ok(Some(Verdict::Rules(Outcome::WonBy(Side::Second)))),
        13 => Ok(Some(Verdict::Rules(Outcome::Drawn))),
        21 => Ok(Some(Verdict::Flag(Outcome::WonBy(Side::First)))),
        22 => Ok(Some(Verdict::Flag(Outcome::WonBy(Side::Second)))),
        23 => Ok(Some(Verdict::Flag(Outcome::Drawn))),
        31 => Ok(Some(Verdict::Illegal(Side::First))),
        32 => Ok(Some(Verdict::Illegal(Side::Second))),
        41 => Ok(Some(Verdict::Resignation(Side::First))),
        42 => Ok(Some(Verdict::Resignation(Side::Second))),
        53 => Ok(Some(Verdict::TurnLimit)),
        61 => Ok(Some(Verdict::Ruling(Side::First))),
        62 => Ok(Some(Verdict::Ruling(Side::Second))),
        _ => Err(Unlisted),
    }
}
