// Time that only falls.
ghost use Rattle.refusal.specs.Refusals.{Answers};
ghost use Rattle.clocks_theory.specs.Kinds.{plain_left, plain_refusal, plain};
ghost use Rattle.clocks.specs.Views.{Starts, plain_plan, plain_line};
ghost use Rattle.std.proofs.Common.{arith};
ghost use Rattle.clocks_theory.proofs.Bounds.{plain_bounds};
ghost use Rattle.clocks_theory.proofs.Runs.{passes};

use crate::held::Plain;
use crate::settings::MOST_MAIN;
use crate::timer::Timer;
use refusal::Refusal;

impl Plain {
    pub fn new(main: u32) -> Result<Plain, Refusal>
        ensures { Answers (plain_refusal main) (λ t. Starts (plain_plan t) (plain_line t) (plain_left main)) result }
    {
        if (1..=MOST_MAIN).contains(&main) {
            Ok(Plain { main, left: main })
        } else {
            Err(Refusal::Setting)
        }
    }
}

impl Timer for Plain {
    ghost plan = { plain_plan };

    ghost line = { plain_line };

    ghost bounded = { λ t. plain_bounds t.main (omega arith, omega arith) };

    ghost passing = { λ t. passes plain t.main };

    fn reset(&mut self) {
        self.left = self.main;
    }

    fn left(&self) -> u32 {
        self.left
    }

    fn spend(&mut self, reading: u32) -> bool {
        let in_time = reading < self.left;
        if in_time {
            self.left -= reading;
        }
        in_time
    }
}
