// What a clock is, for every make: what is left for each side, and what a turn's reading takes.
#![tactic(auto)]

ghost use Rattle.std.specs.Prelude.{◌≡◌, [], nat_lt};
ghost use Rattle.clock.specs.Times.{Times, Bounded, Passing, spent};

use side::Side;

pub trait Clock {
    // what is left for each side after each list of its earlier readings; nothing changes it
    ghost plan: { Self → Times };

    // the rest of the plan from the present point
    ghost line: { Self → Times };

    fn reset(&mut self)
        ensures plan { plan self.new ≡ plan self.old }
        ensures line { line self.new ≡ plan self.old };

    // The milliseconds left for a side.
    fn left(&self, side: Side) -> u32
        ensures { result ≡ line self.now side [] };

    // Spends a reading for a side: true in time, false where the flag has fallen, which is no error.
    fn spend(&mut self, side: Side, reading: u32) -> bool
        ensures plan { plan self.new ≡ plan self.old }
        ensures in_time { result ≡ nat_lt reading (line self.old side []) }
        ensures line { line self.new ≡ spent (line self.old) side reading };

    ghost bounded: { (c : Self) → Bounded (plan c) };

    ghost passing: { (c : Self) → Passing (plan c) };
}
