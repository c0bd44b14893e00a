// The numbered refusals that name no place. A record's faults, which have a place, stand with the record.
#![tactic(auto)]

ghost use Rattle.std.specs.Prelude.{◌≡◌, Some};
ghost use Rattle.refusal.specs.Refusals.{refusal_number, refusal_text};

use std::error::Error;
use std::fmt;

// Each with its number.
#[derive(Clone, Copy, PartialEq, Eq, Debug)]
pub enum Refusal {
    // not 2 to 16 entrants
    Entrants = 1,
    // turn limit not 1 to 256
    Limit = 2,
    // turn space below games × limit
    Space = 3,
    // text not 1 to 64 bytes
    Text = 4,
    // no such game
    NoGame = 5,
    // over 64 readings
    Readings = 6,
    // a reading above 86,400,000
    Reading = 7,
    // the game has ended
    Ended = 8,
    // buffer too short
    Buffer = 9,
    // a clock's, rules' or player's setting out of range
    Setting = 10,
}

impl Refusal {
    pub fn number(self) -> u8
        ensures { result ≡ refusal_number self }
    {
        self as u8
    }
}

impl fmt::Display for Refusal {
    ghost output = { λ r. Some (refusal_text r) };

    fn fmt<W: fmt::Write>(&self, f: &mut fmt::Formatter<W>) -> fmt::Result {
        let number = self.number();
        write!(f, "refused {number}")
    }
}

impl Error for Refusal {}
