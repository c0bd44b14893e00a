use banks::{Alone, TwoBanks};
use clock::Clock;
use clocks::{Plain, Timer, TwoTimers};
use desk::desk::Desk;
use desk::opponents::Opponents;
use entry::Event;
use nim::Nim;
use players::Script;
use rules::Status;
use seating::{game_of, games, seats};
use side::{PerSide, Side};
use std::alloc::{AllocError, Global};
use std::test::Fail;
use verdict::{Outcome, Turn, Verdict, standing_number};

type Table = Desk<Nim, TwoTimers<Plain>, TwoBanks<Alone<Script>, Alone<Script>>>;

fn pair(first: u8, second: u8) -> PerSide<u8> {
    PerSide { first, second }
}

#[test]
fn three_entrants(rt: HostRuntime) {
    assert_eq!(rt; games(3), 3);
    assert_eq!(rt; seats(3, 0), Some(pair(0, 1)));
    assert_eq!(rt; seats(3, 1), Some(pair(2, 0)));
    assert_eq!(rt; seats(3, 2), Some(pair(1, 2)));
    assert_eq!(rt; game_of(3, 0, 1), Some(0));
    assert_eq!(rt; game_of(3, 0, 2), Some(1));
    assert_eq!(rt; game_of(3, 1, 2), Some(2));
}

#[test]
fn sixteen_entrants(rt: HostRuntime) {
    assert_eq!(rt; games(16), 120);
    assert_eq!(rt; seats(16, 119), Some(pair(14, 15)));
    assert_eq!(rt; game_of(16, 14, 15), Some(119));
    assert_eq!(rt; seats(16, 14), Some(pair(0, 15)));
    assert_eq!(rt; seats(16, 15), Some(pair(1, 2)));
    assert_eq!(rt; game_of(16, 1, 2), Some(15));
}

#[test]
fn no_such_game(rt: HostRuntime) {
    assert_eq!(rt; games(0), 0);
    assert_eq!(rt; games(1), 0);
    assert_eq!(rt; seats(3, 3), None);
    assert_eq!(rt; seats(2, 0xffff_ffff), None);
    assert_eq!(rt; seats(1, 0), None);
    assert_eq!(rt; seats(17, 0), None);
    assert_eq!(rt; game_of(3, 1, 1), None);
    assert_eq!(rt; game_of(3, 2, 1), None);
    assert_eq!(rt; game_of(3, 1, 3), None);
    assert_eq!(rt; game_of(17, 0, 1), None);
}

// As in other crates' tests: a crate of its own for these lines would be no plainer.
fn alone(heap: Global, code: u16) -> Result<Alone<Script>, AllocError> {
    Ok(Alone::new(Script::new(Vec::from_slice(heap, &[code])?)))
}

// Nim with two heaps of one, a second for each side, and two players that answer one code each and then resign.
fn table(heap: Global, first: u16, second: u16) -> Result<Table, Fail> {
    let bank = TwoBanks::new(alone(heap, first)?, alone(heap, second)?);
    let rules = Nim::new(&[1, 1])?;
    let clock = TwoTimers {
        first: Plain::new(1_000)?,
        second: Plain::new(1_000)?,
    };
    Ok(Desk { rules, clock, bank })
}

// The verdict's number after an event in an open game, 0 while it goes on.
fn number_after(event: Event, last: bool) -> u8 {
    standing_number(event.settle(None, last))
}

fn two() -> Result<Opponents, Fail> {
    Opponents::new(pair(0, 1)).ok_or_else(|| Fail::new("players 0 and 1 are the same"))
}

#[test]
fn nobody_plays_itself(rt: HostRuntime) {
    assert!(rt; Opponents::new(pair(7, 7)).is_none());
}

#[test]
fn second_takes_the_last(rt: HostRuntime) -> Result<(), Fail> {
    let mut desk = table(rt.alloc(), 1, 33)?;
    let both = two()?;
    assert_eq!(rt; desk.replay(both, &[]), Side::First);
    let made = desk.turn(both, Side::First, 5);
    assert_eq!(rt; made.turn.code, 1);
    assert_eq!(rt; number_after(made.event, false), 0);
    assert_eq!(rt; number_after(made.event, true), 53);
    let made = desk.turn(both, Side::Second, 7);
    assert_eq!(rt; made.turn.code, 33);
    assert_eq!(rt; number_after(made.event, true), 12);
    assert_eq!(rt; desk.clock.left(Side::First), 995);
    assert_eq!(rt; desk.clock.left(Side::Second), 993);
    Ok(())
}

#[test]
fn flags(rt: HostRuntime) -> Result<(), Fail> {
    let mut desk = table(rt.alloc(), 1, 33)?;
    let both = two()?;
    assert_eq!(rt; desk.replay(both, &[]), Side::First);
    let made = desk.turn(both, Side::First, 1_000);
    assert_eq!(rt; made.turn.code, 65_535);
    assert_eq!(rt; number_after(made.event, false), 22);
    assert_eq!(rt;
        desk.replay(
            both,
            &[Turn {
                code: 1,
                reading: 999,
            }],
        ),
        Side::Second
    );
    let made = desk.turn(both, Side::Second, 1_000);
    assert_eq!(rt; number_after(made.event, false), 23);
    assert_eq!(rt; desk.clock.left(Side::First), 1);
    assert_eq!(rt; desk.clock.left(Side::Second), 1_000);
    Ok(())
}

#[test]
fn resigned_and_illegal(rt: HostRuntime) -> Result<(), Fail> {
    let mut desk = table(rt.alloc(), 65_534, 65_535)?;
    let both = two()?;
    assert_eq!(rt; desk.replay(both, &[]), Side::First);
    let made = desk.turn(both, Side::First, 5);
    assert_eq!(rt; number_after(made.event, true), 42);
    assert_eq!(rt; desk.clock.left(Side::First), 995);
    assert_eq!(rt;
        desk.replay(
            both,
            &[Turn {
                code: 33,
                reading: 0,
            }],
        ),
        Side::Second
    );
    let made = desk.turn(both, Side::Second, 999);
    assert_eq!(rt; made.turn.code, 65_535);
    assert_eq!(rt; number_after(made.event, true), 31);
    assert_eq!(rt; desk.clock.left(Side::Second), 1);
    Ok(())
}

#[test]
fn after_the_end_nothing_changes(rt: HostRuntime) {
    let ended = Some(Verdict::Flag(Outcome::Drawn));
    assert_eq!(rt;
        standing_number(Event::Ruling(Side::First).settle(ended, false)),
        23
    );
    assert_eq!(rt;
        standing_number(Event::Move(Status::Open).settle(ended, true)),
        23
    );
    assert_eq!(rt; number_after(Event::Ruling(Side::First), false), 62);
    assert_eq!(rt; number_after(Event::Ruling(Side::Second), true), 61);
    assert_eq!(rt;
        number_after(Event::Move(Status::Won(Side::First)), true),
        11
    );
    assert_eq!(rt; number_after(Event::Move(Status::Drawn), true), 13);
}
