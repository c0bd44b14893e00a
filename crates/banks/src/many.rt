// A bank of players of one type, for an event whose entrants are chosen when the program runs.
ghost use Rattle.std.specs.Prelude.{◌≡◌, ℕ, ◌≤◌, vec_len, vec_capacity, OnOk};
ghost use Rattle.player.specs.Answers.{resigning};
ghost use Rattle.banks_theory.specs.Numbers.{nobody, listed, Seats};
ghost use Rattle.banks_theory.proofs.Places.{listed_coded, listed_absent};
ghost use Rattle.banks.specs.Held.{Added};

use crate::MOST;
use player::{Bank, Player, RESIGNS};
use side::Side;
use std::alloc::Global;

// Players in the order in which they were added.
#[derive(Drop)]
pub struct Bench<P> {
    players: Vec<P>,
    ghost few: { vec_len players ≤ 65535 },
}

// A player that found no seat, handed back.
#[derive(Drop)]
pub enum Unseated<P> {
    // the bench has 65,535 players
    Full(P),
    // no memory for one more
    NoMemory(P),
}

impl<P: Player> Bench<P> {
    pub fn new(heap: Global) -> Bench<P>
        ensures held { vec_len result.players ≡ 0 }
        ensures plan { (k : ℕ) → listed P.Player.plan nobody result.players.items k ≡ nobody }
        ensures line { (k : ℕ) → listed P.Player.line resigning result.players.items k ≡ resigning }
    {
        Bench {
            players: Vec::new(heap),
        }
    }

    // Seats one more player at the end, or hands the player back.
    pub fn add(&mut self, player: P) -> Result<(), Unseated<P>>
        ensures players { Added (vec_capacity self.old.players) self.old.players.items player result self.new.players.items }
        ensures plan { OnOk result (Seats (vec_len self.old.players) (P.Player.plan player) (listed P.Player.plan nobody self.old.players.items) (listed P.Player.plan nobody self.new.players.items)) }
        ensures line { OnOk result (Seats (vec_len self.old.players) (P.Player.line player) (listed P.Player.line resigning self.old.players.items) (listed P.Player.line resigning self.new.players.items)) }
    {
        if self.count() >= MOST {
            return Err(Unseated::Full(player));
        }
        self.players
            .push(player)
            .map_err(|back| Unseated::NoMemory(back.value))
    }
}

impl<P: Player> Bank for Bench<P> {
    ghost held = { λ b. vec_len b.players };

    ghost plan = { λ b. listed P.Player.plan nobody b.players.items };

    ghost line = { λ b. listed P.Player.line resigning b.players.items };

    ghost few = { λ b. b.few };

    ghost coded = { λ b. listed_coded P.Player.plan P.Player.coded b.players.items };

    ghost absent = { λ b. listed_absent P.Player.plan P.Player.line b.players.items _ b.players.ok.0 };

    fn count(&self) -> usize {
        self.players.len()
    }

    #[tactic(auto, using(banks_theory::proofs::Places::seats))]
    fn reset(&mut self, number: usize, seat: Side) {
        if let Some(player) = self.players.get_mut(number) {
            player.reset(seat);
        }
    }

    #[tactic(auto, using(banks_theory::proofs::Places::seats))]
    fn show(&mut self, number: usize, code: u16) {
        if let Some(player) = self.players.get_mut(number) {
            player.show(code);
        }
    }

    fn choose(&self, number: usize) -> u16 {
        self.players
            .get(number)
            .map_or(RESIGNS, |player| player.choose())
    }
}
