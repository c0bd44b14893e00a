// What the rules of a game are, for every game: which codes are legal, who has won, who still has a chance.
#![tactic(auto)]

ghost use Rattle.std.specs.Prelude.{◌≡◌, ℕ, true, not, [], ◌∷◌, Some};
ghost use Rattle.rules.specs.Plans.{RulesPlan, made, Lawful, PointOf, NoWin, status_word};

use side::Side;
use std::fmt;

#[derive(Clone, Copy, PartialEq, Eq, Debug)]
pub enum Status {
    Open,
    Won(Side),
    Drawn,
}

impl fmt::Display for Status {
    ghost output = { λ s. Some (status_word s) };

    fn fmt<W: fmt::Write>(&self, f: &mut fmt::Formatter<W>) -> fmt::Result {
        match self {
            Status::Open => f.write_str("open"),
            Status::Won(side) => write!(f, "{side}"),
            Status::Drawn => f.write_str("drawn"),
        }
    }
}

pub trait Rules: Sized {
    // legal codes lie below it
    const CODES: u16;

    // the most codes that a game can have
    const LONGEST: u16;

    ghost CODES: { ℕ };

    ghost LONGEST: { ℕ };

    // what the rules say of each list of codes; nothing changes it
    ghost plan: { Self → RulesPlan };

    // the rest of the plan from the present point
    ghost line: { Self → RulesPlan };

    fn reset(&mut self)
        ensures plan { plan self.new ≡ plan self.old }
        ensures line { line self.new ≡ plan self.old };

    // Makes a legal code; an illegal one is answered false: a `bool`, as a set's `insert`, since an illegal move is no error.
    fn make(&mut self, code: u16) -> bool
        ensures plan { plan self.new ≡ plan self.old }
        ensures legal { result ≡ (line self.old).legal (code ∷ []) }
        ensures line { line self.new ≡ made (line self.old) code };

    fn status(&self) -> Status
        ensures { result ≡ (line self.now).status [] };

    fn chance(&self, side: Side) -> bool
        ensures { result ≡ (line self.now).chance [] side };

    // Not `Clone`, which may fail for want of memory, nor `Copy`, which would bar rules that hold more than plain data.
    fn copy(&self) -> Self
        ensures plan { plan result ≡ plan self.now }
        ensures line { line result ≡ line self.now };

    ghost lawful: { (x : Self) → Lawful CODES LONGEST (plan x) };

    ghost point: { (x : Self) → PointOf (plan x) (line x) };
}

// Whether the position is dead for a side: it has no chance, and then no series of legal codes wins for it.
pub fn is_dead<R: Rules>(rules: &R, side: Side) -> bool
    ensures value { result ≡ not ((R.line rules.now).chance [] side) }
    ensures no_win { result ≡ true → NoWin (R.line rules.now) side }
{
    !rules.chance(side)
}
