// A player of a kind that is chosen when the program runs.
ghost use Rattle.players.specs.Kinds.{kind_plan, kind_line};
ghost use Rattle.players.specs.declared.kinds.Kind.TheVariants.{Script, Stepper};
ghost use Rattle.players_theory.proofs.Least.{stepper_coded};

use crate::scripts::Script;
use crate::steppers::Stepper;
use player::Player;
use rules::Rules;
use side::Side;

// An enum, and no boxed `dyn Player`: the gate refuses a function that makes one and hands it out.
#[derive(Drop)]
pub enum Kind<R> {
    Script(Script),
    Stepper(Stepper<R>),
}

impl<R: Rules + Drop> Player for Kind<R> {
    ghost plan = { kind_plan R.Rules.CODES R.Rules.plan };

    ghost line = { kind_line R.Rules.CODES R.Rules.line };

    ghost coded = { elim [
      | Script s ↦ λ seat. s.coded
      | Stepper s ↦ λ seat. stepper_coded s.step (R.Rules.lawful s.rules)
    ] };

    fn reset(&mut self, seat: Side) {
        match self {
            Kind::Script(script) => script.reset(seat),
            Kind::Stepper(stepper) => stepper.reset(seat),
        }
    }

    fn show(&mut self, code: u16) {
        match self {
            Kind::Script(script) => script.show(code),
            Kind::Stepper(stepper) => stepper.show(code),
        }
    }

    fn choose(&self) -> u16 {
        match self {
            Kind::Script(script) => script.choose(),
            Kind::Stepper(stepper) => stepper.choose(),
        }
    }
}
