// A delay over any clock: some time of each turn is free.
ghost use Rattle.std.specs.Prelude.{◌≡◌, [], ◌+◌, ◌-◌, ◌<◌};
ghost use Rattle.refusal.specs.Refusals.{Answers};
ghost use Rattle.side.specs.TwoSides.{of_side};
ghost use Rattle.clock.specs.Times.{past, spent};
ghost use Rattle.clocks_theory.specs.Kinds.{capped, delay_times, delay_refusal, delay_left};
ghost use Rattle.clocks.specs.Views.{delayed};
ghost use Rattle.side.specs.declared.Side.{Side};
ghost use Rattle.clocks_theory.specs.Movements.{InBounds};
ghost use Rattle.clocks_theory.proofs.Bounds.{delay_bounds};
ghost use Rattle.clocks_theory.specs.Kinds;
ghost use Rattle.clocks_theory.proofs.Runs.{passes};

use crate::held::Delay;
use crate::settings::{MOST_EXTRA, MOST_TIME};
use clock::Clock;
use refusal::Refusal;
use side::{PerSide, Side};

impl<C: Clock + Drop> Delay<C> {
    pub fn new(below: C, delays: PerSide<u32>) -> Result<Delay<C>, Refusal>
        ensures { Answers (delay_refusal delays) (λ c. (delayed C.Clock.plan c ≡ delay_times delays (C.Clock.plan below)) × (delayed C.Clock.line c ≡ delay_times delays (C.Clock.line below))) result }
    {
        // each side by its name: an array and an `all` would stand for two comparisons
        if delays.first <= MOST_EXTRA && delays.second <= MOST_EXTRA {
            Ok(Delay { below, delays })
        } else {
            Err(Refusal::Setting)
        }
    }
}

impl<C: Clock> Delay<C> {
    // The layer's times go on past an in-time reading.
    fn go_on(&mut self, side: Side, reading: u32)
        requires { reading < capped (C.Clock.line self.old.below side [] + of_side side self.old.delays) }
        ensures plan { delayed C.Clock.plan self.new ≡ delayed C.Clock.plan self.old }
        ensures line { delayed C.Clock.line self.new ≡ past (delayed C.Clock.line self.old) side reading }
    {
        let delay = *self.delays.of(side);
        let _ = self.below.spend(side, reading.saturating_sub(delay));
    }
}

impl<C: Clock> Clock for Delay<C> {
    ghost plan = { delayed C.Clock.plan };

    ghost line = { delayed C.Clock.line };

    ghost bounded = { λ c.
        let below = C.Clock.bounded c.below in
        let bounds : (s : Side) → InBounds (delay_left (of_side s c.delays) (C.Clock.plan c.below s)) = λ s. delay_bounds (of_side s c.delays) (C.Clock.plan c.below s) (record { least = below.least s; most = below.most s }) in
        record { least = λ s. (bounds s).least; most = λ s. (bounds s).most } };

    ghost passing = { λ c. record { over = λ s. (passes (Kinds.delay (of_side s c.delays)) (C.Clock.plan c.below s)).over } };

    fn reset(&mut self) {
        self.below.reset();
    }

    fn left(&self, side: Side) -> u32 {
        let delay = *self.delays.of(side);
        self.below.left(side).saturating_add(delay).min(MOST_TIME)
    }

    fn spend(&mut self, side: Side, reading: u32) -> bool {
        let in_time = reading < self.left(side);
        if in_time {
            self.go_on(side, reading);
        }
        in_time
    }
}
