// A player that answers from a list of codes.
ghost use Rattle.std.specs.Prelude.{◌≡◌};
ghost use Rattle.player.specs.Answers.{AreCodes};
ghost use Rattle.players_theory.specs.Scripts.{scripted, scripted_from};

use player::{Player, RESIGNS};
use side::Side;

#[derive(Drop)]
pub struct Script {
    codes: Vec<u16>,
    // how many codes were shown, until the answers are past the last
    shown: usize,
    ghost coded: { AreCodes (scripted codes.items) },
}

impl Script {
    pub fn new(codes: Vec<u16>) -> Script
        ensures plan { scripted result.codes.items ≡ scripted codes.items }
        ensures line { scripted_from result.codes.items result.shown ≡ scripted codes.items }
    {
        Script { codes, shown: 0 }
    }
}

impl Player for Script {
    ghost plan = { λ s seat. scripted s.codes.items };

    ghost line = { λ s. scripted_from s.codes.items s.shown };

    ghost coded = { λ s seat. s.coded };

    fn reset(&mut self, _seat: Side) {
        self.shown = 0;
    }

    fn show(&mut self, _code: u16) {
        if self.shown / 2 < self.codes.len() {
            self.shown += 1;
        }
    }

    fn choose(&self) -> u16 {
        self.codes.get(self.shown / 2).copied().unwrap_or(RESIGNS)
    }
}
