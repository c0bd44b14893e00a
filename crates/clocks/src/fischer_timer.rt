// Time to which each turn adds an increment.
ghost use Rattle.refusal.specs.Refusals.{Answers};
ghost use Rattle.clocks_theory.specs.Kinds.{fischer_left, fischer_refusal, fischer};
ghost use Rattle.clocks.specs.Views.{Starts, fischer_plan, fischer_line};
ghost use Rattle.std.proofs.Common.{arith};
ghost use Rattle.clocks_theory.proofs.Bounds.{fischer_bounds};
ghost use Rattle.clocks_theory.proofs.Runs.{passes};

use crate::held::Fischer;
use crate::settings::{MOST_EXTRA, MOST_MAIN, capped};
use crate::timer::Timer;
use refusal::Refusal;

impl Fischer {
    pub fn new(main: u32, increment: u32) -> Result<Fischer, Refusal>
        ensures { Answers (fischer_refusal main increment) (λ t. Starts (fischer_plan t) (fischer_line t) (fischer_left main increment)) result }
    {
        if (1..=MOST_MAIN).contains(&main) && increment <= MOST_EXTRA {
            Ok(Fischer {
                main,
                increment,
                left: main,
            })
        } else {
            Err(Refusal::Setting)
        }
    }
}

impl Timer for Fischer {
    ghost plan = { fischer_plan };

    ghost line = { fischer_line };

    ghost bounded = { λ t. fischer_bounds t.main t.increment (omega arith, omega arith) };

    ghost passing = { λ t. passes (fischer t.increment) t.main };

    fn reset(&mut self) {
        self.left = self.main;
    }

    fn left(&self) -> u32 {
        self.left
    }

    fn spend(&mut self, reading: u32) -> bool {
        let in_time = reading < self.left;
        if in_time {
            self.left = capped(self.left - reading + self.increment);
        }
        in_time
    }
}
