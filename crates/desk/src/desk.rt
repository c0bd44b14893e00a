// Rules, clock and bank, as one game's turns are gone through and made.
ghost use Rattle.std.specs.Prelude.{◌≡◌, [], if◌then◌else◌, ◌==◌};
ghost use Rattle.side.specs.declared.Side.TheVariants.{First};
ghost use Rattle.side.specs.TwoSides.{opponent};
ghost use Rattle.rules.specs.Plans.{made};
ghost use Rattle.player.specs.Answers.{shown};
ghost use Rattle.verdict.specs.declared.Outcome.TheVariants.{WonBy, Drawn};
ghost use Rattle.entry.specs.declared.Event.TheVariants.{Resignation, Illegal, Move};
ghost use Rattle.meaning.specs.Turns.{mover};
ghost use Rattle.desk.specs.Lines.{at_start, followed, walked, made_of, Way};
ghost use Rattle.desk.specs.Desks.{plans_of, lines_of};

use crate::opponents::Opponents;
use clock::Clock;
use entry::Event;
use player::{Bank, RESIGNS};
use rules::Rules;
use side::Side;
use verdict::{NO_MOVE, Outcome, Turn};

// A turn, and what happens in it.
#[derive(Clone, Copy, PartialEq, Eq, Debug)]
pub struct Made {
    pub turn: Turn,
    pub event: Event,
}

#[derive(Drop)]
pub struct Desk<R, C, B> {
    pub rules: R,
    pub clock: C,
    pub bank: B,
}

// What an answer in time is; `legal` says whether the rules have made it.
// Not an `Option` of a legal code: a resignation is told by its code, and no rules make it.
pub fn answer_event<R: Rules>(rules: &R, side: Side, code: u16, legal: bool) -> Event
    ensures { result ≡ (if code == 65534 then Resignation (opponent side) else if legal then Move ((R.line rules.now).status []) else Illegal (opponent side)) }
{
    if code == RESIGNS {
        Event::Resignation(side.other())
    } else if legal {
        Event::Move(rules.status())
    } else {
        Event::Illegal(side.other())
    }
}

// Whom a fallen flag of the side gives the game to.
pub fn flag_outcome<R: Rules>(rules: &R, side: Side) -> Outcome
    ensures { result ≡ (if (R.line rules.now).chance [] (opponent side) then WonBy (opponent side) else Drawn) }
{
    let rival = side.other();
    if rules.chance(rival) {
        Outcome::WonBy(rival)
    } else {
        Outcome::Drawn
    }
}

// Makes a code again, while the rules allow more: no game has more codes than its rules' longest.
fn remake<R: Rules>(rules: &mut R, code: u16, count: u16) -> u16
    requires { Way (R.plan rules.old) (R.line rules.old) count }
    ensures plan { R.plan rules.new ≡ R.plan rules.old }
    ensures line { R.line rules.new ≡ made (R.line rules.old) code }
    ensures way { Way (R.plan rules.new) (R.line rules.new) result }
{
    if count < R::LONGEST && rules.make(code) {
        count + 1
    } else {
        count
    }
}

impl<R: Rules, C: Clock, B: Bank> Desk<R, C, B> {
    fn show(&mut self, both: Opponents, code: u16)
        ensures plans { plans_of R.plan C.plan B.plan self.new ≡ plans_of R.plan C.plan B.plan self.old }
        ensures rules { self.new.rules ≡ self.old.rules }
        ensures clock { self.new.clock ≡ self.old.clock }
        ensures first { B.line self.new.bank both.numbers.first ≡ shown (B.line self.old.bank both.numbers.first) code }
        ensures second { B.line self.new.bank both.numbers.second ≡ shown (B.line self.old.bank both.numbers.second) code }
    {
        self.bank.show(both.numbers.first, code);
        self.bank.show(both.numbers.second, code);
    }

    // Resets all and goes through a game's turns as they stand; answers the side then to move.
    pub fn replay(&mut self, both: Opponents, turns: &[Turn]) -> Side
        ensures plans { plans_of R.plan C.plan B.plan self.new ≡ plans_of R.plan C.plan B.plan self.old }
        ensures lines { lines_of R.line C.line B.line self.new both ≡ walked (at_start (plans_of R.plan C.plan B.plan self.old) both) First turns.now }
        ensures mover { result ≡ mover First turns.now }
    {
        self.rules.reset();
        self.clock.reset();
        self.bank.reset(both.numbers.first, Side::First);
        self.bank.reset(both.numbers.second, Side::Second);
        // No `zip` with sides: the side after the last turn is the answer, and `count` stays where a code is not legal.
        let mut side = Side::First;
        let mut count = 0;
        for turn in turns {
            let _ = self.clock.spend(side, turn.reading);
            count = remake(&mut self.rules, turn.code, count);
            self.show(both, turn.code);
            side = side.other();
        }
        side
    }

    // One turn from the present point.
    pub fn turn(&mut self, both: Opponents, side: Side, reading: u32) -> Made
        ensures plans { plans_of R.plan C.plan B.plan self.new ≡ plans_of R.plan C.plan B.plan self.old }
        ensures made { result ≡ made_of (lines_of R.line C.line B.line self.old both) side reading }
        ensures lines { lines_of R.line C.line B.line self.new both ≡ followed (lines_of R.line C.line B.line self.old both) side result.turn }
    {
        let (code, event) = if self.clock.spend(side, reading) {
            let code = self.bank.choose(both.of(side));
            let legal = self.rules.make(code);
            (code, answer_event(&self.rules, side, code, legal))
        } else {
            let event = Event::Flag(flag_outcome(&self.rules, side));
            let _ = self.rules.make(NO_MOVE);
            (NO_MOVE, event)
        };
        self.show(both, code);
        Made {
            turn: Turn { code, reading },
            event,
        }
    }
}
