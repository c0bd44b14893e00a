// Reads a record: the content, or the first fault by rising place.
ghost use Rattle.std.specs.Prelude.{◌≡◌, ◌+◌, ◌^◌, ◌<◌, ◌≤◌, ◌++◌, length, true, false, ◌&&◌, nat_le, nat_lt, MatchResult, IfOk, IfSome, slice_index};
ghost use Rattle.format.specs.Requirements.{head_requirements, sized_pair_requirements, text_length, turns_length, reading_requirements, left_requirements, turn_at, turns_in, PartedInto};
ghost use Rattle.std.specs.List.{position};
ghost use Rattle.verdict.specs.Verdicts.{standing_of};
ghost use Rattle.record.specs.Reading.{Checked, Looked, Answered, Exactly};

use crate::content::{Record, TurnBytes, Turns, half, turn_of, word};
use crate::fault::{Fault, HeadField, Part};
use crate::layout::{LEFTS, MARK, PAIRS, SECOND_MARK, SHORTEST, TEXT, VERSION};
use side::PerSide;
use verdict::{Verdict, standing_of};

const LONGEST_TEXT: usize = 64;

const LONGEST_READING: u32 = 86_400_000;

const MOST_LEFT: usize = 1_000_000_000;

// A requirement, and the fault where it does not hold.
fn require(holds: bool, fault: Fault) -> Result<(), Fault>
    ensures { MatchResult result (λ _. holds ≡ true) (λ f. (holds ≡ false) × (f ≡ fault)) }
{
    if holds { Ok(()) } else { Err(fault) }
}

// Whether a number is one of 1 to `most`: by a name, since with `contains` in the rows themselves their proof did not close.
fn from_one(number: usize, most: usize) -> bool
    ensures { result ≡ (nat_le 1 number && nat_le number most) }
{
    (1..=most).contains(&number)
}

// How the game stands, once each field of the head is as it must be: row by row, as the specification lists them.
fn check_head(head: &[u8; SHORTEST]) -> Result<Option<Verdict>, Fault>
    ensures checked { Checked (head_requirements head.now) result }
    ensures verdict { IfOk result (λ v. v ≡ standing_of (slice_index head.now 6)) }
{
    require(head[0] == MARK, Fault::Head(HeadField::Mark))?;
    require(head[1] == SECOND_MARK, Fault::Head(HeadField::SecondMark))?;
    require(head[2] == VERSION, Fault::Head(HeadField::Version))?;
    require(head[3] == 0, Fault::Head(HeadField::Byte3))?;
    require(head[4] <= 15, Fault::Head(HeadField::FirstEntrant))?;
    require(
        head[5] <= 15 && head[5] != head[4],
        Fault::Head(HeadField::SecondEntrant),
    )?;
    let verdict = standing_of(head[6]).map_err(|_| Fault::Head(HeadField::Verdict))?;
    require(head[7] == 0, Fault::Head(HeadField::Byte7))?;
    require(
        from_one(usize::from(half(head, 8)), 256),
        Fault::Head(HeadField::Limit),
    )?;
    require(
        half(head, 10) == u16::from(PAIRS),
        Fault::Head(HeadField::PairCount),
    )?;
    Ok(verdict)
}

// What follows the head and the pairs.
#[derive(Clone, Copy)]
struct Parts<'a> {
    text: &'a [u8],
    turns: TurnBytes<'a>,
    lefts: PerSide<u32>,
}

// The parts, once each pair is as it must be; the bytes begin with `front`.
fn split_parts<'a>(front: &[u8; SHORTEST], bytes: &'a [u8]) -> Result<Parts<'a>, Fault>
    ensures checked { Checked (sized_pair_requirements front.now (length bytes.now) (text_length front.now) (turns_length front.now)) result }
    ensures parts { IfOk result (λ p. PartedInto bytes.now (text_length front.now) (turns_length front.now) p.text.now p.turns.0.now p.lefts.first p.lefts.second) }
{
    let limit = usize::from(half(front, 8));
    // `as`, here and below: no `From` makes a `u32` a `usize`
    let text = word(front, 16) as usize;
    let turns = word(front, 24) as usize;
    require(
        word(front, 12) as usize == TEXT && from_one(text, LONGEST_TEXT),
        Fault::Pair(Part::Text),
    )?;
    require(
        word(front, 20) as usize == TEXT + text && turns % 6 == 0 && turns / 6 <= limit,
        Fault::Pair(Part::Turns),
    )?;
    require(
        word(front, 28) as usize == TEXT + text + turns
            && word(front, 32) as usize == LEFTS
            && TEXT + text + turns + LEFTS == bytes.len(),
        Fault::Pair(Part::Lefts),
    )?;
    let (_, body) = bytes.split_at(TEXT);
    let (text, rest) = body.split_at(text);
    let (turns, lefts) = rest.split_at(turns);
    Ok(Parts {
        text,
        turns: TurnBytes(turns),
        lefts: PerSide {
            first: word(lefts, 0),
            second: word(lefts, 4),
        },
    })
}

// The first turn with a reading above what a turn may take.
fn first_slow(turns: &[[u8; 6]]) -> Option<usize>
    ensures place { result ≡ position (λ t. nat_lt 86400000 (turn_at t).reading) turns.now }
    ensures within { IfSome result (λ number. number < length turns.now) }
{
    turns
        .iter()
        .position(|turn| turn_of(turn).reading > LONGEST_READING)
}

// The turns' bytes begin at `place` of the record.
fn check_readings(turns: TurnBytes<'_>, place: usize) -> Result<(), Fault>
    requires { place + length turns.0.now < 2 ^ 64 }
    ensures { Checked (reading_requirements place (turns_in turns.entry.0.now)) result }
{
    match first_slow(turns.chunks()) {
        Some(number) => Err(Fault::Reading(place + 6 * number)),
        None => Ok(()),
    }
}

fn check_lefts(lefts: PerSide<u32>, place: usize) -> Result<(), Fault>
    requires { place + 4 < 2 ^ 64 }
    ensures { Checked (left_requirements place lefts.first lefts.second) result }
{
    require(
        from_one(lefts.first as usize, MOST_LEFT),
        Fault::Left(place),
    )?;
    require(
        from_one(lefts.second as usize, MOST_LEFT),
        Fault::Left(place + 4),
    )
}

// Apart from `read`, so that each way out owes one fact, from which both of `read` follow.
#[tactic(auto, using(format::proofs::Places::short_fault))]
fn look(bytes: &[u8]) -> Result<Record<'_, TurnBytes<'_>>, Fault>
    ensures { Looked bytes.now result }
{
    let Some(front) = bytes.first_chunk::<SHORTEST>() else {
        return Err(Fault::Short(bytes.len()));
    };
    let verdict = check_head(front)?;
    let Parts { text, turns, lefts } = split_parts(front, bytes)?;
    let text_end = TEXT + text.len();
    check_readings(turns, text_end)?;
    check_lefts(lefts, text_end + turns.0.len())?;
    Ok(Record {
        seats: PerSide {
            first: front[4],
            second: front[5],
        },
        verdict,
        limit: half(front, 8),
        text,
        turns,
        lefts,
    })
}

// The record that the bytes hold, or what is wrong with them first, by rising place.
pub fn read(bytes: &[u8]) -> Result<Record<'_, TurnBytes<'_>>, Fault>
    ensures answer { Answered bytes.now result }
    ensures exactly { Exactly bytes.now result }
{
    look(bytes)
}
