// A timer for each side is a clock: each side's readings move its own timer and no other.
ghost use Rattle.side.specs.TwoSides.{pick};
ghost use Rattle.side.specs.declared.Side.TheVariants.{First, Second};
ghost use Rattle.std.proofs.Common.{rules};

use crate::timer::Timer;
use clock::Clock;
use side::Side;

// Not `side::PerSide`: no `impl Clock` can stand here for a struct of another crate, and one struct more around it would be no plainer.
#[derive(Clone, Copy)]
pub struct TwoTimers<T> {
    pub first: T,
    pub second: T,
}

impl<T: Timer> Clock for TwoTimers<T> {
    ghost plan = { λ c s. pick s (T.Timer.plan c.first) (T.Timer.plan c.second) };

    ghost line = { λ c s. pick s (T.Timer.line c.first) (T.Timer.line c.second) };

    ghost bounded = { λ c.
        record {
          least = elim [ First ↦ (T.Timer.bounded c.first).least | Second ↦ (T.Timer.bounded c.second).least ];
          most = elim [ First ↦ (T.Timer.bounded c.first).most | Second ↦ (T.Timer.bounded c.second).most ];
        } };

    ghost passing = { Prim.search rules };

    fn reset(&mut self) {
        self.first.reset();
        self.second.reset();
    }

    // By `match`, here and in `spend`: a function that lends out a side's timer to be changed would be a `match` too.
    fn left(&self, side: Side) -> u32 {
        match side {
            Side::First => self.first.left(),
            Side::Second => self.second.left(),
        }
    }

    fn spend(&mut self, side: Side, reading: u32) -> bool {
        match side {
            Side::First => self.first.spend(reading),
            Side::Second => self.second.spend(reading),
        }
    }
}
