// What the reading program prints of some bytes, and the sample record.
#![tactic(auto)]

ghost use Rattle.std.specs.Prelude.{◌≡◌, ℕ, ◌≤◌, List, ◌++◌, length, drop};
ghost use Rattle.format.specs.Layout.{WellFormed, encode};
ghost use Rattle.record.specs.Contents.{content};
ghost use Rattle.report.specs.Lines.{accepted_line, line_of, Texts, sample_content, sample_end};

use record::content::{Record, Turns};
use record::reader::read;
use std::alloc::{AllocError, Global};
use verdict::standing_number;

fn accepted<T: Turns>(heap: Global, record: &Record<'_, T>) -> Result<String, AllocError>
    ensures { Texts result (accepted_line (content T.Turns.turns «record».now)) }
{
    format!(in heap;
        "{} {} {} {} {} {}",
        record.seats.first,
        record.seats.second,
        standing_number(record.verdict),
        record.turns.count(),
        record.lefts.first,
        record.lefts.second
    )
}

// One line: seats, verdict, number of turns and lefts, or the number and place of the first fault.
// No more than the first 1,645 bytes decide it.
pub fn line(heap: Global, bytes: &[u8]) -> Result<String, AllocError>
    ensures text { Texts result (line_of bytes.now) }
    ensures decided { (b more : List ℕ) → 1645 ≤ length b → line_of (b ++ more) ≡ line_of b }
{
    match read(bytes) {
        Ok(record) => accepted(heap, &record),
        Err(fault) => fault.to_string(heap),
    }
}

// Two entrants, turn limit 10, text `N`, two turns, won by the second side.
pub fn sample() -> [u8; 57]
    ensures bytes { result ≡ encode sample_content }
    ensures size { length (encode sample_content) ≡ 57 }
    ensures end { drop 49 (encode sample_content) ≡ sample_end }
    ensures well { WellFormed sample_content }
{
    *b"\x47\x52\x01\x00\x00\x01\x0c\x00\x0a\x00\x03\x00\x24\x00\x00\x00\x01\x00\x00\x00\x25\x00\x00\x00\x0c\x00\x00\x00\x31\x00\x00\x00\x08\x00\x00\x00\x4e\x01\x00\x05\x00\x00\x00\x21\x00\x07\x00\x00\x00\xe3\x03\x00\x00\xe1\x03\x00\x00"
}
