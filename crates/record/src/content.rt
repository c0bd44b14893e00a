// What a record says, whatever holds its turns.
ghost use Rattle.std.specs.Prelude.{◌≡◌, ◌+◌, ◌/◌, ◌<◌, List, map, length};
ghost use Rattle.std.specs.List.{slice_get};
ghost use Rattle.verdict.specs.declared.Turn.{Turn};
ghost use Rattle.format.specs.Requirements.{half_at, word_at, turn_at, turns_in};

use side::PerSide;
use verdict::{Turn, Verdict};

// A series of turns, wherever it is kept.
pub trait Turns {
    ghost turns: { Self → List Turn };

    fn count(&self) -> usize
        ensures { result ≡ length (turns self.now) };

    fn turn(&self, number: usize) -> Option<Turn>
        ensures { result ≡ slice_get (turns self.now) number };
}

// What a record says.
#[derive(Clone, Copy)]
pub struct Record<'a, T> {
    pub seats: PerSide<u8>,
    pub verdict: Option<Verdict>,
    pub limit: u16,
    pub text: &'a [u8],
    pub turns: T,
    pub lefts: PerSide<u32>,
}

// Turns that are lent as they are.
#[derive(Clone, Copy)]
pub struct TurnList<'a>(pub &'a [Turn]);

impl Turns for TurnList<'_> {
    ghost turns = { λ t. t.0.now };

    fn count(&self) -> usize {
        self.0.len()
    }

    fn turn(&self, number: usize) -> Option<Turn> {
        self.0.get(number).copied()
    }
}

// Turns in a record's bytes, six to a turn.
#[derive(Clone, Copy)]
pub struct TurnBytes<'a>(pub &'a [u8]);

// The number in two bytes, the lowest first: by its place, as the format's table counts, and not by a piece cut out before.
pub(crate) fn half(bytes: &[u8], place: usize) -> u16
    requires { place + 1 < length bytes.now }
    ensures { result ≡ half_at bytes.now place }
{
    u16::from_le_bytes([bytes[place], bytes[place + 1]])
}

// No one text with `half`: each number has a `from_le_bytes` of its own.
pub(crate) fn word(bytes: &[u8], place: usize) -> u32
    requires { place + 3 < length bytes.now }
    ensures { result ≡ word_at bytes.now place }
{
    u32::from_le_bytes([
        bytes[place],
        bytes[place + 1],
        bytes[place + 2],
        bytes[place + 3],
    ])
}

// The turn in six bytes: its code, and its reading.
pub(crate) fn turn_of(bytes: &[u8; 6]) -> Turn
    ensures { result ≡ turn_at bytes.now }
{
    Turn {
        code: half(bytes, 0),
        reading: word(bytes, 2),
    }
}

impl<'a> TurnBytes<'a> {
    // The bytes turn by turn; fewer than six at the end are none.
    #[tactic(auto, using(format::proofs::TurnParts::turns_in_chunks))]
    pub(crate) fn chunks(self) -> &'a [[u8; 6]]
        ensures turns { turns_in self.entry.0.now ≡ map turn_at result.now }
        ensures count { length result.now ≡ length self.entry.0.now / 6 }
    {
        let (turns, _) = self.0.as_chunks();
        turns
    }
}

impl Turns for TurnBytes<'_> {
    ghost turns = { λ t. turns_in t.0.now };

    fn count(&self) -> usize {
        self.chunks().len()
    }

    #[tactic(auto, using(format::proofs::TurnParts::turn_among))]
    fn turn(&self, number: usize) -> Option<Turn> {
        self.chunks().get(number).map(turn_of)
    }
}
