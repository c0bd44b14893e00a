// Two banks are a bank; the second's numbers follow the first's.
ghost use Rattle.std.specs.Prelude.{◌≡◌};
ghost use Rattle.std.proofs.Common.{rules};
ghost use Rattle.player.specs.Answers.{resigning};
ghost use Rattle.banks_theory.specs.Numbers.{nobody, together, place, Joins};
ghost use Rattle.banks_theory.proofs.Places.{joined_coded, joined_absent};
ghost use Rattle.banks.specs.Held.{both_held, both_at};

use crate::MOST;
use banks_theory::Place;
use player::{Bank, RESIGNS};
use side::Side;

#[derive(Drop)]
pub struct TwoBanks<X, Y> {
    low: X,
    high: Y,
}

impl<X: Bank, Y: Bank> TwoBanks<X, Y> {
    pub fn new(low: X, high: Y) -> TwoBanks<X, Y>
        ensures held { both_held X.Bank.held Y.Bank.held result ≡ together (X.Bank.held low) (Y.Bank.held high) }
        ensures plan { Joins (X.Bank.held low) (Y.Bank.held high) (X.Bank.plan low) (Y.Bank.plan high) nobody (both_at X.Bank.held Y.Bank.held X.Bank.plan Y.Bank.plan nobody result) }
        ensures line { Joins (X.Bank.held low) (Y.Bank.held high) (X.Bank.line low) (Y.Bank.line high) resigning (both_at X.Bank.held Y.Bank.held X.Bank.line Y.Bank.line resigning result) }
    {
        TwoBanks { low, high }
    }

    // How many numbers both have together, up to the most.
    fn total(&self) -> usize
        ensures { result ≡ both_held X.Bank.held Y.Bank.held self.now }
    {
        (self.low.count() + self.high.count()).min(MOST)
    }

    fn place(&self, number: usize) -> Place
        ensures { result ≡ place (X.Bank.held self.now.low) (Y.Bank.held self.now.high) number }
    {
        let first = self.low.count();
        if number < first {
            Place::Low(number)
        } else if number < self.total() {
            Place::High(number - first)
        } else {
            Place::Nowhere
        }
    }
}

impl<X: Bank, Y: Bank> Bank for TwoBanks<X, Y> {
    ghost held = { both_held X.Bank.held Y.Bank.held };

    ghost plan = { both_at X.Bank.held Y.Bank.held X.Bank.plan Y.Bank.plan nobody };

    ghost line = { both_at X.Bank.held Y.Bank.held X.Bank.line Y.Bank.line resigning };

    ghost few = { Prim.search rules };

    ghost coded = { λ b. joined_coded _ _ (X.Bank.plan b.low) (Y.Bank.plan b.high) (X.Bank.coded b.low) (Y.Bank.coded b.high) };

    ghost absent = { λ b. joined_absent _ _ (X.Bank.plan b.low) (Y.Bank.plan b.high) (X.Bank.line b.low) (Y.Bank.line b.high) (X.Bank.few b.low) };

    fn count(&self) -> usize {
        self.total()
    }

    fn reset(&mut self, number: usize, seat: Side) {
        match self.place(number) {
            Place::Low(k) => self.low.reset(k, seat),
            Place::High(k) => self.high.reset(k, seat),
            Place::Nowhere => {}
        }
    }

    fn show(&mut self, number: usize, code: u16) {
        match self.place(number) {
            Place::Low(k) => self.low.show(k, code),
            Place::High(k) => self.high.show(k, code),
            Place::Nowhere => {}
        }
    }

    fn choose(&self, number: usize) -> u16 {
        match self.place(number) {
            Place::Low(k) => self.low.choose(k),
            Place::High(k) => self.high.choose(k),
            Place::Nowhere => RESIGNS,
        }
    }
}
