// Writes a record at the front of a lent buffer.
ghost use Rattle.std.specs.Prelude.{◌≡◌, ◌+◌, ◌*◌, ◌^◌, ◌<◌, ◌≤◌, ◌++◌, length, is_ok, if◌then◌else◌};
ghost use Rattle.refusal.specs.Refusals.{Answers};
ghost use Rattle.format.specs.Layout.{WellFormed, encode, head, pair, half, word, turn_bytes};
ghost use Rattle.format.specs.Laid.{Lays, written, write_refusal, word_size};
ghost use Rattle.format.specs.Promises.{Reads};
ghost use Rattle.record.specs.Contents.{content};

use crate::content::{Record, Turns};
use crate::layout::{LEFTS, MARK, PAIRS, SECOND_MARK, SHORTEST, TEXT, VERSION};
use refusal::Refusal;
use side::PerSide;
use verdict::{Turn, standing_number};

// Lays bytes at a place, and tells where they end.
// Buffer and place go apart: of a pen that held both, each contract would also have to say that it keeps its buffer.
fn put(buffer: &mut [u8], place: usize, bytes: &[u8]) -> usize
    requires { place + length bytes.now ≤ length buffer.old }
    ensures { Lays buffer.old place bytes.now buffer.new result }
{
    let end = place + bytes.len();
    buffer[place..end].copy_from_slice(bytes);
    end
}

// Two pieces, one right after the other.
fn put_both(buffer: &mut [u8], place: usize, first: &[u8], second: &[u8]) -> usize
    requires { place + length first.now + length second.now ≤ length buffer.old }
    ensures { Lays buffer.old place (first.now ++ second.now) buffer.new result }
{
    let middle = put(buffer, place, first);
    put(buffer, middle, second)
}

fn put_pair(buffer: &mut [u8], place: usize, offset: u32, size: u32) -> usize
    requires { place + 8 ≤ length buffer.old }
    ensures { Lays buffer.old place (pair offset size) buffer.new result }
{
    put_both(buffer, place, &offset.to_le_bytes(), &size.to_le_bytes())
}

fn put_turn(buffer: &mut [u8], place: usize, turn: Turn) -> usize
    requires { place + 6 ≤ length buffer.old }
    ensures { Lays buffer.old place (half turn.code ++ word turn.reading) buffer.new result }
{
    put_both(
        buffer,
        place,
        &turn.code.to_le_bytes(),
        &turn.reading.to_le_bytes(),
    )
}

// The turns, one after the other: by number, since an iterator could only go over the same numbers.
fn put_turns<T: Turns>(buffer: &mut [u8], place: usize, turns: &T) -> usize
    requires { place + 6 * length (T.Turns.turns turns.now) ≤ length buffer.old }
    ensures { Lays buffer.old place (turn_bytes (T.Turns.turns turns.now)) buffer.new result }
{
    let mut end = place;
    for number in 0..turns.count() {
        if let Some(turn) = turns.turn(number) {
            end = put_turn(buffer, end, turn);
        }
    }
    end
}

impl<T: Turns> Record<'_, T> {
    // The bytes that the record takes; none where its offsets could not count them.
    #[tactic(auto, using(format::proofs::Back::length_encode, format::proofs::LaidOut::size_none, format::proofs::LaidOut::size_some))]
    pub fn length(&self) -> Option<u32>
        ensures { result ≡ word_size (length (encode (content T.Turns.turns self.now))) }
    {
        let turns = self.turns.count().checked_mul(6)?;
        let all = SHORTEST.checked_add(self.text.len())?.checked_add(turns)?;
        u32::try_from(all).ok()
    }

    fn head(&self) -> [u8; 12]
        ensures { result ≡ head (content T.Turns.turns self.now) }
    {
        let number = standing_number(self.verdict);
        let [low, high] = self.limit.to_le_bytes();
        [
            MARK,
            SECOND_MARK,
            VERSION,
            0,
            self.seats.first,
            self.seats.second,
            number,
            0,
            low,
            high,
            PAIRS,
            0,
        ]
    }

    // Lays the record at the buffer's front, part by part, and tells where it ends.
    #[tactic(auto, using(format::proofs::Back::length_encode, format::proofs::Back::length_turn_bytes))]
    fn put_all(&self, buffer: &mut [u8]) -> usize
        requires few { length (encode (content T.Turns.turns self.now)) < 2 ^ 32 }
        requires room { length (encode (content T.Turns.turns self.now)) ≤ length buffer.old }
        ensures { Lays buffer.old 0 (encode (content T.Turns.turns self.now)) buffer.new result }
    {
        // `as`: no `From` makes a `usize` a `u32`, and `few` says that each fits
        let from = TEXT as u32;
        let text = self.text.len() as u32;
        let turns = 6 * self.turns.count() as u32;
        let head_end = put(buffer, 0, &self.head());
        let text_pair = put_pair(buffer, head_end, from, text);
        let turns_pair = put_pair(buffer, text_pair, from + text, turns);
        let lefts_pair = put_pair(buffer, turns_pair, from + text + turns, LEFTS as u32);
        let text_end = put(buffer, lefts_pair, self.text);
        let turns_end = put_turns(buffer, text_end, &self.turns);
        let PerSide { first, second } = self.lefts;
        put_both(
            buffer,
            turns_end,
            &first.to_le_bytes(),
            &second.to_le_bytes(),
        )
    }

    // Writes the record at the buffer's front and tells its length; a buffer that is too short stays as it is.
    #[tactic(auto, using(format::proofs::LaidOut::laid_at_front))]
    pub fn write(&self, buffer: &mut [u8]) -> Result<usize, Refusal>
        ensures answer { Answers (write_refusal (length buffer.old) (content T.Turns.turns self.now)) (λ n. n ≡ length (encode (content T.Turns.turns self.now))) result }
        ensures buffer { buffer.new ≡ (if is_ok result then written buffer.old (content T.Turns.turns self.now) else buffer.old) }
        ensures reads_back { WellFormed (content T.Turns.turns self.now) → Reads (encode (content T.Turns.turns self.now)) (content T.Turns.turns self.now) }
    {
        match self.length() {
            Some(size) if size as usize <= buffer.len() => Ok(self.put_all(buffer)),
            _ => Err(Refusal::Buffer),
        }
    }
}
