// A single player is a bank of one.
ghost use Rattle.player.specs.Answers.{resigning};
ghost use Rattle.banks_theory.specs.Numbers.{nobody, only, Seats};
ghost use Rattle.banks_theory.proofs.Places.{only_coded, only_absent};
ghost use Rattle.std.proofs.Common.{rules};

use player::{Bank, Player, RESIGNS};
use side::Side;

// Number 0 is the player; every other number is not held.
#[derive(Drop)]
pub struct Alone<P> {
    player: P,
}

impl<P: Player> Alone<P> {
    pub fn new(player: P) -> Alone<P>
        ensures plan { Seats 0 (P.Player.plan player) (λ _. nobody) (only (P.Player.plan result.player) nobody) }
        ensures line { Seats 0 (P.Player.line player) (λ _. resigning) (only (P.Player.line result.player) resigning) }
    {
        Alone { player }
    }
}

impl<P: Player> Bank for Alone<P> {
    ghost held = { λ b. 1 };

    ghost plan = { λ b. only (P.Player.plan b.player) nobody };

    ghost line = { λ b. only (P.Player.line b.player) resigning };

    ghost few = { Prim.search rules };

    ghost coded = { λ b. only_coded (P.Player.plan b.player) (P.Player.coded b.player) };

    ghost absent = { λ b. only_absent (P.Player.plan b.player) (P.Player.line b.player) };

    fn count(&self) -> usize {
        1
    }

    fn reset(&mut self, number: usize, seat: Side) {
        if number == 0 {
            self.player.reset(seat);
        }
    }

    fn show(&mut self, number: usize, code: u16) {
        if number == 0 {
            self.player.show(code);
        }
    }

    fn choose(&self, number: usize) -> u16 {
        match number {
            0 => self.player.choose(),
            _ => RESIGNS,
        }
    }
}
