// Nim: one to eight heaps of 1 to 31 counters; who takes the last counter wins.
#![tactic(auto)]

ghost use Rattle.std.specs.Prelude.{◌≡◌, ◌-◌, ◌<◌, ◌≤◌, ◌↔◌, [], ◌++◌, length, replicate, IsTrue, if◌then◌else◌};
ghost use Rattle.side.specs.declared.Side.TheVariants.{First};
ghost use Rattle.refusal.specs.Refusals.{Answers};
ghost use Rattle.rules.specs.Plans.{Winnable};
ghost use Rattle.nim_theory.specs.Nim.{counters, filled, fits, taken, chance_of, sizes, allowed, refusal_of, plan_at, nim_plan, Made, MostCodes, OnTheWay, Counted, nim, at};
ghost use Rattle.std.proofs.Common.{arith};
ghost use Rattle.nim_theory.proofs.Start.{laws};
ghost use Rattle.rules.proofs.Sound.{point_of};

use refusal::Refusal;
use rules::{Rules, Status};
use side::Side;

const MOST_HEAPS: usize = 8;

const LARGEST_HEAP: u8 = 31;

fn are_allowed_sizes(heaps: &[u8]) -> bool
    ensures { result ≡ sizes heaps.now }
{
    heaps.iter().all(|h| (1..=LARGEST_HEAP).contains(h))
}

// Whether the heaps are one to eight, each of 1 to 31.
fn is_allowed(heaps: &[u8]) -> bool
    ensures { result ≡ allowed heaps.now }
{
    (1..=MOST_HEAPS).contains(&heaps.len()) && are_allowed_sizes(heaps)
}

// Eight heaps, of which each that was not set up is empty.
#[derive(Clone, Copy)]
struct Heaps {
    sizes: [u8; MOST_HEAPS],
    // the counters that they hold in all
    left: u16,
    ghost eight: { length sizes ≡ 8 },
    ghost left_is: { left ≡ counters sizes },
}

impl Heaps {
    fn new(heaps: &[u8]) -> Heaps
        requires { length heaps.now ≤ 8 }
        ensures { result.sizes ≡ heaps.now ++ replicate (8 - length heaps.now) 0 }
    {
        let left = heaps.iter().map(|h| u16::from(*h)).sum();
        let mut sizes = [0; MOST_HEAPS];
        sizes[..heaps.len()].copy_from_slice(heaps);
        Heaps { sizes, left }
    }

    // How many are not empty. By a sum: `filter` and `count` take four times the instructions.
    fn filled(&self) -> usize
        ensures { result ≡ filled self.now.sizes }
    {
        self.sizes.iter().map(|h| usize::from(*h > 0)).sum()
    }

    // Takes the counters of a code; false where it takes none, or more than its heap holds, and then nothing is taken.
    // In place: heaps that were handed back would be copied at each code, the illegal ones too.
    fn take(&mut self, code: u16) -> bool
        ensures legal { result ≡ fits self.old.sizes code }
        ensures sizes { self.new.sizes ≡ (if result then taken self.old.sizes code else self.old.sizes) }
    {
        let heap = usize::from(code / 32);
        // `as`: no `From` makes a `u16` a `u8`, and what is below 32 fits
        let take = (code % 32) as u8;
        let held = self.sizes.get(heap).copied().unwrap_or(0);
        if !(1..=held).contains(&take) {
            return false;
        }
        self.sizes[heap] = held - take;
        self.left -= u16::from(take);
        true
    }

    // Both sides have a chance where counters outnumber the heaps that are not empty; else the one that takes the last counter.
    fn has_chance(&self, turn: Side, side: Side) -> bool
        ensures { result ≡ chance_of self.now.sizes turn side }
    {
        let filled = self.filled();
        let last_taker = if filled % 2 == 1 { turn } else { turn.other() };
        filled < usize::from(self.left) || last_taker == side
    }
}

#[derive(Clone, Copy)]
pub struct Nim {
    start: Heaps,
    heaps: Heaps,
    turn: Side,
    ghost some: { 0 < start.left },
    ghost few: { start.left ≤ 248 },
    ghost way: { OnTheWay start.sizes heaps.sizes turn },
}

impl Nim {
    pub fn new(heaps: &[u8]) -> Result<Nim, Refusal>
        ensures { Answers (refusal_of heaps.now) (λ n. Made heaps.now n.start.sizes n.heaps.sizes n.turn) result }
    {
        if !is_allowed(heaps) {
            return Err(Refusal::Setting);
        }
        let start = Heaps::new(heaps);
        Ok(Nim {
            start,
            heaps: start,
            turn: Side::First,
        })
    }

    // How many counters are left: those at the start, less what the codes that led here took. So many codes can still be made.
    #[tactic(auto, using(nim_theory::proofs::Start::counted_on_way))]
    pub fn counters_left(&self) -> usize
        ensures value { result ≡ counters self.now.heaps.sizes }
        ensures most { MostCodes (plan_at self.now.heaps.sizes self.now.turn) result }
        ensures counted { Counted self.now.start.sizes self.now.heaps.sizes self.now.turn result }
    {
        usize::from(self.heaps.left)
    }
}

impl Rules for Nim {
    const CODES: u16 = 256;

    const LONGEST: u16 = 248;

    ghost CODES = { 256 };

    ghost LONGEST = { 248 };

    ghost plan = { λ x. nim_plan x.start.sizes };

    ghost line = { λ x. plan_at x.heaps.sizes x.turn };

    ghost lawful = { λ x. laws x.start.sizes x.start.eight (omega arith) (omega arith) };

    ghost point = { λ x. point_of nim (at x.start.sizes First) (at x.heaps.sizes x.turn) x.way };

    fn reset(&mut self) {
        self.heaps = self.start;
        self.turn = Side::First;
    }

    fn make(&mut self, code: u16) -> bool {
        if !self.heaps.take(code) {
            return false;
        }
        self.turn = self.turn.other();
        true
    }

    fn status(&self) -> Status {
        if self.heaps.left == 0 {
            Status::Won(self.turn.other())
        } else {
            Status::Open
        }
    }

    // A side has a chance exactly where some series from here wins for it.
    fn chance(&self, side: Side) -> bool
        ensures value { result ≡ (plan_at self.now.heaps.sizes self.now.turn).chance [] side }
        ensures exact { IsTrue result ↔ Winnable (plan_at self.now.heaps.sizes self.now.turn) side }
    {
        self.heaps.has_chance(self.turn, side)
    }

    fn copy(&self) -> Self {
        *self
    }
}
