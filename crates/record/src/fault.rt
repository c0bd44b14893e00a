// What is wrong with bytes that are no record, and where.
ghost use Rattle.std.specs.Prelude.{◌≡◌, Some};
ghost use Rattle.record.specs.Faults.{field_place, part_place, fault_number, fault_place, found_of, refused_line};

use std::error::Error;
use std::fmt;

// A field of the head, by its place.
#[derive(Clone, Copy, PartialEq, Eq, Debug)]
pub enum HeadField {
    Mark = 0,
    SecondMark = 1,
    Version = 2,
    Byte3 = 3,
    FirstEntrant = 4,
    SecondEntrant = 5,
    Verdict = 6,
    Byte7 = 7,
    Limit = 8,
    PairCount = 10,
}

// A part of the record, by the place of its pair of offset and length.
#[derive(Clone, Copy, PartialEq, Eq, Debug)]
pub enum Part {
    Text = 12,
    Turns = 20,
    Lefts = 28,
}

#[derive(Clone, Copy, PartialEq, Eq, Debug)]
pub enum Fault {
    // fewer bytes than the shortest record has, and how many
    Short(usize),
    Head(HeadField),
    Pair(Part),
    // a reading out of range, with its turn's place
    Reading(usize),
    // a left out of range, with its place
    Left(usize),
}

impl HeadField {
    pub fn place(self) -> usize
        ensures { result ≡ field_place self }
    {
        self as usize // its byte in the head
    }
}

impl Part {
    // The place of the pair of offset and length.
    pub fn place(self) -> usize
        ensures { result ≡ part_place self }
    {
        self as usize
    }
}

impl Fault {
    // A `match`: variants that hold values have no discriminants.
    pub fn number(self) -> u8
        ensures { result ≡ fault_number self }
    {
        match self {
            Fault::Short(_) | Fault::Head(_) => 11,
            Fault::Pair(_) => 12,
            Fault::Reading(_) | Fault::Left(_) => 13,
        }
    }

    pub fn place(self) -> usize
        ensures { result ≡ fault_place self }
    {
        match self {
            Fault::Head(field) => field.place(),
            Fault::Pair(part) => part.place(),
            Fault::Short(place) | Fault::Reading(place) | Fault::Left(place) => place,
        }
    }
}

impl fmt::Display for Fault {
    ghost output = { λ f. Some (refused_line (found_of f)) };

    fn fmt<W: fmt::Write>(&self, f: &mut fmt::Formatter<W>) -> fmt::Result {
        let number = self.number();
        let place = self.place();
        write!(f, "refused {number} {place}")
    }
}

impl Error for Fault {}
