// Main time, then periods of one length: a turn takes whole periods only.
ghost use Rattle.std.specs.Prelude.{◌≡◌, ◌*◌, ◌/◌, ◌<◌, ◌≤◌};
ghost use Rattle.refusal.specs.Refusals.{Answers};
ghost use Rattle.clocks_theory.specs.Kinds.{japanese_left, japanese_refusal, japanese};
ghost use Rattle.clocks.specs.Views.{Starts, japanese_plan, japanese_line};
ghost use Rattle.std.proofs.Common.{arith};
ghost use Rattle.clocks_theory.proofs.Bounds.{japanese_bounds, overtime_most};
ghost use Rattle.clocks_theory.proofs.Runs.{passes};

use crate::held::Japanese;
use crate::settings::{MOST_EXTRA, MOST_MAIN, MOST_PERIODS};
use crate::timer::Timer;
use refusal::Refusal;

impl Japanese {
    pub fn new(main: u32, periods: u32, length: u32) -> Result<Japanese, Refusal>
        ensures { Answers (japanese_refusal main periods length) (λ t. Starts (japanese_plan t) (japanese_line t) (japanese_left main periods length)) result }
    {
        if main <= MOST_MAIN
            && (1..=MOST_PERIODS).contains(&periods)
            && (1..=MOST_EXTRA).contains(&length)
        {
            Ok(Japanese {
                main,
                periods,
                length,
                rest: main,
                held: periods,
            })
        } else {
            Err(Refusal::Setting)
        }
    }
}

impl Timer for Japanese {
    ghost plan = { japanese_plan };

    ghost line = { japanese_line };

    ghost bounded = { λ t.
        let top = overtime_most t.periods t.length t.few t.small in
        japanese_bounds t.main t.periods t.length (omega arith) t.long (omega arith) };

    ghost passing = { λ t. passes (japanese t.length) (record { main = t.main; periods = t.periods }) };

    fn reset(&mut self) {
        self.rest = self.main;
        self.held = self.periods;
    }

    #[tactic(auto, using(clocks_theory::proofs::Bounds::overtime_most))]
    fn left(&self) -> u32 {
        self.rest + self.held * self.length
    }

    #[tactic(auto, using(clocks_theory::proofs::Bounds::periods_lost))]
    fn spend(&mut self, reading: u32) -> bool {
        if reading >= self.left() {
            return false;
        }
        if reading < self.rest {
            self.rest -= reading;
        } else {
            self.held -= (reading - self.rest) / self.length;
            self.rest = 0;
        }
        true
    }
}
