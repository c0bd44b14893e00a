// A pile of 1 to 9 counters. The code is how many are taken, one or more; an empty pile is a draw.
ghost use Rattle.std.specs.Prelude.{◌≡◌, ◌≤◌};
ghost use Rattle.refusal.specs.Refusals.{Answers};
ghost use Rattle.rules.specs.Machine.{plan_of, OnWay};
ghost use Rattle.players_tests.specs.Piles.{pile, pile_refusal};
ghost use Rattle.players_tests.specs.Taking.{laws};
ghost use Rattle.rules.proofs.Sound.{point_of};

use refusal::Refusal;
use rules::{Rules, Status};
use side::Side;

#[derive(Clone, Copy)]
pub struct Pile {
    full: u16,
    left: u16,
    ghost some: { 1 ≤ full },
    ghost most: { full ≤ 9 },
    ghost way: { OnWay pile full left },
}

impl Pile {
    pub fn new(counters: u16) -> Result<Pile, Refusal>
        ensures { Answers (pile_refusal counters) (λ p. (p.full ≡ counters) × (p.left ≡ counters)) result }
    {
        if !(1..=Self::LONGEST).contains(&counters) {
            return Err(Refusal::Setting);
        }
        Ok(Pile {
            full: counters,
            left: counters,
        })
    }
}

impl Rules for Pile {
    const CODES: u16 = 10;

    const LONGEST: u16 = 9;

    ghost CODES = { 10 };

    ghost LONGEST = { 9 };

    ghost plan = { λ x. plan_of pile x.full };

    ghost line = { λ x. plan_of pile x.left };

    ghost lawful = { λ x. laws x.full x.some x.most };

    ghost point = { λ x. point_of pile x.full x.left x.way };

    fn reset(&mut self) {
        self.left = self.full;
    }

    fn make(&mut self, code: u16) -> bool {
        let legal = (1..=self.left).contains(&code);
        if legal {
            self.left -= code;
        }
        legal
    }

    fn status(&self) -> Status {
        if self.left == 0 {
            Status::Drawn
        } else {
            Status::Open
        }
    }

    // Nobody ever wins, and the laws ask no more of a chance.
    fn chance(&self, _side: Side) -> bool {
        false
    }

    fn copy(&self) -> Self {
        *self
    }
}
