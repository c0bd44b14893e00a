// A player over any rules that answers the lowest legal code from its step on.
ghost use Rattle.std.specs.Prelude.{◌≡◌, IfOk};
ghost use Rattle.refusal.specs.Refusals.{Answers};
ghost use Rattle.players_theory.specs.Steps.{lowest, stepper_answers, stepper_refusal, PlaysLowest};
ghost use Rattle.players_theory.proofs.Least.{stepper_coded};

use player::{Player, RESIGNS};
use refusal::Refusal;
use rules::Rules;
use side::Side;

// the highest step
const MOST_STEP: u16 = 65_533;

#[derive(Drop)]
pub struct Stepper<R> {
    rules: R,
    step: u16,
}

impl<R: Rules + Drop> Stepper<R> {
    // A stepper that goes on from where the rules are.
    pub fn new(rules: R, step: u16) -> Result<Stepper<R>, Refusal>
        ensures plan { Answers (stepper_refusal step) (λ s. stepper_answers R.Rules.CODES s.step (R.Rules.plan s.rules) ≡ stepper_answers R.Rules.CODES step (R.Rules.plan rules)) result }
        ensures line { IfOk result (λ s. stepper_answers R.Rules.CODES s.step (R.Rules.line s.rules) ≡ stepper_answers R.Rules.CODES step (R.Rules.line rules)) }
        ensures lowest { IfOk result (λ s. PlaysLowest (R.Rules.plan rules) step (stepper_answers R.Rules.CODES s.step (R.Rules.plan s.rules))) }
        ensures lowest_line { IfOk result (λ s. PlaysLowest (R.Rules.line rules) step (stepper_answers R.Rules.CODES s.step (R.Rules.line s.rules))) }
    {
        if step > MOST_STEP {
            return Err(Refusal::Setting);
        }
        Ok(Stepper { rules, step })
    }
}

// The lowest legal code at or above one, if there is any.
fn lowest_legal<R: Rules + Drop>(rules: &R, from: u16) -> Option<u16>
    ensures { result ≡ lowest R.Rules.CODES (R.Rules.line rules.now) from }
{
    (from..R::CODES).find(|code| rules.copy().make(*code))
}

impl<R: Rules + Drop> Player for Stepper<R> {
    ghost plan = { λ s seat. stepper_answers R.Rules.CODES s.step (R.Rules.plan s.rules) };

    ghost line = { λ s. stepper_answers R.Rules.CODES s.step (R.Rules.line s.rules) };

    ghost coded = { λ s seat. stepper_coded s.step (R.Rules.lawful s.rules) };

    fn reset(&mut self, _seat: Side) {
        self.rules.reset();
    }

    fn show(&mut self, code: u16) {
        let _ = self.rules.make(code);
    }

    fn choose(&self) -> u16 {
        lowest_legal(&self.rules, self.step)
            .or_else(|| lowest_legal(&self.rules, 0))
            .unwrap_or(RESIGNS)
    }
}
