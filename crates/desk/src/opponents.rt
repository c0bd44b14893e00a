// The two players of a game.
ghost use Rattle.std.specs.Prelude.{◌≡◌, ◌≢◌, MatchOption};
ghost use Rattle.side.specs.TwoSides.{of_side};

use side::{PerSide, Side};

// By their numbers in the bank; nobody plays against itself.
#[derive(Clone, Copy)]
pub struct Opponents {
    pub(crate) numbers: PerSide<usize>,
    ghost apart: { numbers.first ≢ numbers.second },
}

impl Opponents {
    pub fn new(seats: PerSide<u8>) -> Option<Opponents>
        ensures { MatchOption result (seats.first ≡ seats.second) (λ both. both.numbers ≡ seats) }
    {
        if seats.first == seats.second {
            None
        } else {
            Some(Opponents {
                numbers: PerSide {
                    first: usize::from(seats.first),
                    second: usize::from(seats.second),
                },
            })
        }
    }

    pub fn of(self, side: Side) -> usize
        ensures { result ≡ of_side side self.numbers }
    {
        *self.numbers.of(side)
    }
}
