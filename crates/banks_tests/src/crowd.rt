// A bank as large as a bank can be: every player always answers the same code.
ghost use Rattle.std.specs.Prelude.{◌≡◌, ◌≤◌};
ghost use Rattle.banks_tests.specs.Crowds.{alike};
ghost use Rattle.std.proofs.Common.{rules};

use player::{Bank, RESIGNS};
use side::Side;

const MANY: usize = 65_535;

#[derive(Clone, Copy)]
pub struct Crowd {
    code: u16,
    ghost coded: { code ≤ 65535 },
}

impl Crowd {
    pub fn new(code: u16) -> Crowd
        ensures { result.code ≡ code }
    {
        Crowd { code }
    }
}

impl Bank for Crowd {
    ghost held = { λ b. 65535 };

    ghost plan = { λ b k seat. alike b.code k };

    ghost line = { λ b. alike b.code };

    ghost few = { Prim.search rules };

    ghost coded = { Prim.search rules };

    ghost absent = { Prim.search rules };

    fn count(&self) -> usize {
        MANY
    }

    fn reset(&mut self, _number: usize, _seat: Side) {}

    fn show(&mut self, _number: usize, _code: u16) {}

    fn choose(&self, number: usize) -> u16 {
        if number < MANY { self.code } else { RESIGNS }
    }
}
