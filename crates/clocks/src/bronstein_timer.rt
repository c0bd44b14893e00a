// Time that gives a reading back, up to the delay.
ghost use Rattle.refusal.specs.Refusals.{Answers};
ghost use Rattle.clocks_theory.specs.Kinds.{bronstein_left, bronstein_refusal, bronstein};
ghost use Rattle.clocks.specs.Views.{Starts, bronstein_plan, bronstein_line};
ghost use Rattle.clocks_theory.proofs.Bounds.{bronstein_bounds};
ghost use Rattle.std.specs.Prelude.{◌+◌};
ghost use Rattle.clocks_theory.specs.Kinds;
ghost use Rattle.clocks_theory.proofs.Runs.{passes};

use crate::held::Bronstein;
use crate::settings::{MOST_EXTRA, MOST_MAIN, capped};
use crate::timer::Timer;
use refusal::Refusal;

impl Bronstein {
    pub fn new(main: u32, delay: u32) -> Result<Bronstein, Refusal>
        ensures { Answers (bronstein_refusal main delay) (λ t. Starts (bronstein_plan t) (bronstein_line t) (bronstein_left main delay)) result }
    {
        if (1..=MOST_MAIN).contains(&main) && delay <= MOST_EXTRA {
            Ok(Bronstein {
                main,
                delay,
                left: capped(main + delay),
            })
        } else {
            Err(Refusal::Setting)
        }
    }
}

impl Timer for Bronstein {
    ghost plan = { bronstein_plan };

    ghost line = { bronstein_line };

    ghost bounded = { λ t. bronstein_bounds t.main t.delay t.begun };

    ghost passing = { λ t. passes (bronstein t.delay) (Kinds.capped (t.main + t.delay)) };

    fn reset(&mut self) {
        self.left = capped(self.main + self.delay);
    }

    fn left(&self) -> u32 {
        self.left
    }

    fn spend(&mut self, reading: u32) -> bool {
        let in_time = reading < self.left;
        if in_time {
            self.left = capped(self.left - reading + reading.min(self.delay));
        }
        in_time
    }
}
