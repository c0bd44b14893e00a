// A clock on which no time goes by, to hold a layer over any left.
ghost use Rattle.std.specs.Prelude.{◌≤◌};
ghost use Rattle.std.proofs.Common.{rules};

use clock::Clock;
use side::Side;

#[derive(Clone, Copy)]
pub struct Still {
    pub left: u32,
    ghost some: { 1 ≤ left },
    ghost most: { left ≤ 1000000000 },
}

impl Clock for Still {
    ghost plan = { λ c _ _. c.left };

    ghost line = { λ c _ _. c.left };

    ghost bounded = { Prim.search rules };

    ghost passing = { Prim.search rules };

    fn reset(&mut self) {}

    fn left(&self, _side: Side) -> u32 {
        self.left
    }

    fn spend(&mut self, _side: Side, reading: u32) -> bool {
        reading < self.left
    }
}
