// What the time of one side is, for every make: a clock has one for each side.
// No one struct for every make, over a trait of movements: that trait has eight clauses and four ghost members in 65 lines, to save each make ten.
ghost use Rattle.std.specs.Prelude.{◌≡◌, [], nat_lt};
ghost use Rattle.clocks_theory.specs.Movements.{Lefts, onward, InBounds, Passes};

pub trait Timer {
    // what is left after each list of earlier readings; nothing changes it
    ghost plan: { Self → Lefts };

    // the rest of the plan from the present point
    ghost line: { Self → Lefts };

    fn reset(&mut self)
        ensures plan { plan self.new ≡ plan self.old }
        ensures line { line self.new ≡ plan self.old };

    // The milliseconds left.
    fn left(&self) -> u32
        ensures { result ≡ line self.now [] };

    // Spends a reading: true in time, false where the flag has fallen, which is no error.
    // Each make tests the reading: a part of the trait that goes on past one in time would have a `requires`, and no public call has.
    fn spend(&mut self, reading: u32) -> bool
        ensures plan { plan self.new ≡ plan self.old }
        ensures in_time { result ≡ nat_lt reading (line self.old []) }
        ensures line { line self.new ≡ onward (line self.old) reading };

    ghost bounded: { (t : Self) → InBounds (plan t) };

    ghost passing: { (t : Self) → Passes (plan t) };
}
