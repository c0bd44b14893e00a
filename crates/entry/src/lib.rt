// A game's entry in the table of games, and what an event makes of its verdict, none while it is open.
#![tactic(auto)]

ghost use Rattle.std.specs.Prelude.{◌≡◌};
ghost use Rattle.entry.specs.Entries.{noted};

use rules::Status;
use side::Side;
use verdict::{Outcome, Verdict};

// What can happen in a game. A resignation and an illegal move name the winner, a ruling the loser.
#[derive(Clone, Copy, PartialEq, Eq, Debug)]
pub enum Event {
    Flag(Outcome),
    Resignation(Side),
    Illegal(Side),
    Move(Status),
    Ruling(Side),
}

// How many turns a game has, and its verdict.
#[derive(Clone, Copy, PartialEq, Eq, Debug)]
pub struct Entry {
    pub turns: u16,
    pub verdict: Option<Verdict>,
}

impl Event {
    // What it makes of a game's verdict; `last` says that no further turn is allowed. Of an ended game nothing changes.
    pub fn settle(self, verdict: Option<Verdict>, last: bool) -> Option<Verdict>
        ensures { result ≡ noted last verdict self }
    {
        match (verdict, self) {
            (None, Event::Flag(outcome)) => Some(Verdict::Flag(outcome)),
            (None, Event::Resignation(winner)) => Some(Verdict::Resignation(winner)),
            (None, Event::Illegal(winner)) => Some(Verdict::Illegal(winner)),
            (None, Event::Move(Status::Won(winner))) => {
                Some(Verdict::Rules(Outcome::WonBy(winner)))
            }
            (None, Event::Move(Status::Drawn)) => Some(Verdict::Rules(Outcome::Drawn)),
            (None, Event::Move(Status::Open)) => {
                if last { Some(Verdict::TurnLimit) } else { None }
            }
            (None, Event::Ruling(loser)) => Some(Verdict::Ruling(loser.other())),
            (Some(_), _) => verdict,
        }
    }
}
