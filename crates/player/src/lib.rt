// What a player is, and a bank of players: an answer for each seat and each list of codes shown.
#![tactic(auto)]

ghost use Rattle.std.specs.Prelude.{◌≡◌, ◌≢◌, [], ℕ, ◌≤◌};
ghost use Rattle.side.specs.declared.Side.{Side};
ghost use Rattle.player.specs.Answers.{Answers, shown, AreCodes, Absent};

use side::Side;

// The code of a player that resigns: a number and no variant, since a turn's 16 bits in a record hold it as any code.
pub const RESIGNS: u16 = 65_534;

pub trait Player {
    // the answers at each seat; nothing changes them
    ghost plan: { Self → Side → Answers };

    // the rest of the plan from the present point
    ghost line: { Self → Answers };

    fn reset(&mut self, seat: Side)
        ensures plan { plan self.new ≡ plan self.old }
        ensures line { line self.new ≡ plan self.old seat };

    // Shows a code that was made, or should have been: the line goes on past it, legal or not.
    fn show(&mut self, code: u16)
        ensures plan { plan self.new ≡ plan self.old }
        ensures line { line self.new ≡ shown (line self.old) code };

    // The answer at the present point.
    fn choose(&self) -> u16
        ensures { result ≡ line self.now [] };

    ghost coded: { (p : Self) (seat : Side) → AreCodes (plan p seat) };
}

// Players numbered from 0. Each call names a number and moves only that player's line.
pub trait Bank {
    ghost held: { Self → ℕ };

    ghost plan: { Self → ℕ → Side → Answers };

    ghost line: { Self → ℕ → Answers };

    fn count(&self) -> usize
        ensures { result ≡ held self.now };

    fn reset(&mut self, number: usize, seat: Side)
        ensures held { held self.new ≡ held self.old }
        ensures plan { plan self.new ≡ plan self.old }
        ensures own { line self.new number ≡ plan self.old number seat }
        ensures others { (k : ℕ) → k ≢ number → line self.new k ≡ line self.old k };

    fn show(&mut self, number: usize, code: u16)
        ensures held { held self.new ≡ held self.old }
        ensures plan { plan self.new ≡ plan self.old }
        ensures own { line self.new number ≡ shown (line self.old number) code }
        ensures others { (k : ℕ) → k ≢ number → line self.new k ≡ line self.old k };

    fn choose(&self, number: usize) -> u16
        ensures { result ≡ line self.now number [] };

    ghost few: { (b : Self) → held b ≤ 65535 };

    ghost coded: { (b : Self) (k : ℕ) (seat : Side) → AreCodes (plan b k seat) };

    // who is not held resigns, and nothing moves it
    ghost absent: { (b : Self) (k : ℕ) → held b ≤ k → Absent (plan b k) (line b k) };
}
