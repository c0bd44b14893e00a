use crate::still::Still;
use clock::Clock;
use clocks::{Bronstein, Delay, Fischer, Japanese, Plain, Timer, TwoTimers};
use refusal::Refusal;
use side::{PerSide, Side};
use std::process::Abort;
use std::test::*;

// The number of a refusal; nothing for what was made.
fn refusal_of<T: Drop>(made: Result<T, Refusal>) -> Option<u8> {
    made.err().map(|refusal| refusal.number())
}

fn delayed<C: Clock + Drop>(below: C, first: u32, second: u32) -> Result<Delay<C>, Refusal> {
    Delay::new(below, PerSide { first, second })
}

// A reading, whether it is in time, and what is then left.
type Turn = (u32, bool, u32);

// Spends each reading, sees whether it was in time and what it left, and goes back to the start.
fn run<T: Timer>(rt: &impl Abort, timer: &mut T, start: u32, turns: &[Turn]) -> Result<(), Fail> {
    assert_eq!(rt; timer.left(), start);
    for (reading, in_time, left) in turns {
        assert_eq!(rt; timer.spend(*reading), *in_time);
        assert_eq!(rt; timer.left(), *left);
    }
    timer.reset();
    assert_eq!(rt; timer.left(), start);
    Ok(())
}

// The same for one side of a clock, whose other side keeps its time: a timer has none to look at, so one text for both is no plainer.
fn run_side<C: Clock>(
    rt: &impl Abort,
    clock: &mut C,
    side: Side,
    start: u32,
    turns: &[Turn],
) -> Result<(), Fail> {
    let other = clock.left(side.other());
    assert_eq!(rt; clock.left(side), start);
    for (reading, in_time, left) in turns {
        assert_eq!(rt; clock.spend(side, *reading), *in_time);
        assert_eq!(rt; clock.left(side), *left);
        assert_eq!(rt; clock.left(side.other()), other);
    }
    Ok(())
}

#[test]
fn mains_in_range(rt: HostRuntime) -> Result<(), Fail> {
    for (main, number) in [
        (0u32, Some(10u8)),
        (1, None),
        (86_400_000, None),
        (86_400_001, Some(10)),
        (4_294_967_295, Some(10)),
    ] {
        assert_eq!(rt; refusal_of(Plain::new(main)), number);
        assert_eq!(rt; refusal_of(Fischer::new(main, 0)), number);
        assert_eq!(rt; refusal_of(Bronstein::new(main, 0)), number);
    }
    for (main, number) in [(0u32, None), (86_400_000, None), (86_400_001, Some(10))] {
        assert_eq!(rt; refusal_of(Japanese::new(main, 1, 1)), number);
    }
    Ok(())
}

#[test]
fn extras_in_range(rt: HostRuntime) -> Result<(), Fail> {
    for (extra, number) in [(0u32, None), (600_000, None), (600_001, Some(10))] {
        assert_eq!(rt; refusal_of(Fischer::new(1, extra)), number);
        assert_eq!(rt; refusal_of(Bronstein::new(1, extra)), number);
        assert_eq!(rt; refusal_of(delayed(Still { left: 1 }, extra, 0)), number);
        assert_eq!(rt; refusal_of(delayed(Still { left: 1 }, 0, extra)), number);
    }
    Ok(())
}

#[test]
fn periods_in_range(rt: HostRuntime) -> Result<(), Fail> {
    for (periods, number) in [(0u32, Some(10u8)), (1, None), (100, None), (101, Some(10))] {
        assert_eq!(rt; refusal_of(Japanese::new(0, periods, 1)), number);
    }
    for (length, number) in [
        (0u32, Some(10u8)),
        (1, None),
        (600_000, None),
        (600_001, Some(10)),
    ] {
        assert_eq!(rt; refusal_of(Japanese::new(0, 1, length)), number);
    }
    let most = Japanese::new(86_400_000, 100, 600_000)?;
    assert_eq!(rt; most.left(), 146_400_000);
    Ok(())
}

#[test]
fn plain_table(rt: HostRuntime) -> Result<(), Fail> {
    let mut timer = Plain::new(1_000)?;
    run(
        &rt,
        &mut timer,
        1_000,
        &[
            (1_001, false, 1_000),
            (1_000, false, 1_000),
            (400, true, 600),
            (599, true, 1),
            (1, false, 1),
            (0, true, 1),
            (4_294_967_295, false, 1),
        ],
    )
}

#[test]
fn fischer_table(rt: HostRuntime) -> Result<(), Fail> {
    let mut timer = Fischer::new(1_000, 500)?;
    run(
        &rt,
        &mut timer,
        1_000,
        &[
            (1_000, false, 1_000),
            (999, true, 501),
            (0, true, 1_001),
            (1_002, false, 1_001),
            (1_001, false, 1_001),
            (1_000, true, 501),
            (4_294_967_295, false, 501),
        ],
    )
}

#[test]
fn bronstein_table(rt: HostRuntime) -> Result<(), Fail> {
    let mut timer = Bronstein::new(1_000, 300)?;
    run(
        &rt,
        &mut timer,
        1_300,
        &[
            (200, true, 1_300),
            (500, true, 1_100),
            (300, true, 1_100),
            (1_101, false, 1_100),
            (1_100, false, 1_100),
            (1_099, true, 301),
            (300, true, 301),
            (301, false, 301),
            (4_294_967_295, false, 301),
        ],
    )
}

#[test]
fn japanese_table(rt: HostRuntime) -> Result<(), Fail> {
    let mut timer = Japanese::new(1_000, 3, 500)?;
    run(
        &rt,
        &mut timer,
        2_500,
        &[
            (2_500, false, 2_500),
            (1_499, true, 1_500),
            (499, true, 1_500),
            (500, true, 1_000),
            (1_000, false, 1_000),
            (999, true, 500),
            (501, false, 500),
            (500, false, 500),
            (499, true, 500),
            (4_294_967_295, false, 500),
        ],
    )
}

#[test]
fn japanese_edges(rt: HostRuntime) -> Result<(), Fail> {
    let mut timer = Japanese::new(1_000, 3, 500)?;
    // all main time but one, then that one: no period is lost
    run(
        &rt,
        &mut timer,
        2_500,
        &[(999, true, 1_501), (1, true, 1_500)],
    )?;
    run(&rt, &mut timer, 2_500, &[(1_000, true, 1_500)])?;
    run(&rt, &mut timer, 2_500, &[(1_500, true, 1_000)])?;
    run(
        &rt,
        &mut timer,
        2_500,
        &[(2_499, true, 500), (2_500, false, 500)],
    )?;
    let mut no_main = Japanese::new(0, 1, 1)?;
    run(&rt, &mut no_main, 1, &[(1, false, 1), (0, true, 1)])
}

// 86,400,000 and 600,000 a turn come to the cap at the 1,523rd turn.
#[test]
fn fischer_cap(rt: HostRuntime) -> Result<(), Fail> {
    let mut timer = Fischer::new(86_400_000, 600_000)?;
    for _ in 0..1_522u32 {
        assert!(rt; timer.spend(0));
    }
    assert_eq!(rt; timer.left(), 999_600_000);
    assert!(rt; timer.spend(0));
    assert_eq!(rt; timer.left(), 1_000_000_000);
    assert!(rt; timer.spend(600_000));
    assert_eq!(rt; timer.left(), 1_000_000_000);
    assert!(rt; !timer.spend(1_000_000_000));
    assert!(rt; timer.spend(999_999_999));
    assert_eq!(rt; timer.left(), 600_001);
    Ok(())
}

#[test]
fn sides_apart(rt: HostRuntime) -> Result<(), Fail> {
    let mut clock = TwoTimers {
        first: Fischer::new(1_000, 500)?,
        second: Fischer::new(2_000, 0)?,
    };
    run_side(
        &rt,
        &mut clock,
        Side::First,
        1_000,
        &[(999, true, 501), (1_999, false, 501)],
    )?;
    run_side(
        &rt,
        &mut clock,
        Side::Second,
        2_000,
        &[(1_999, true, 1), (1, false, 1)],
    )?;
    run_side(&rt, &mut clock, Side::First, 501, &[(500, true, 501)])?;
    clock.reset();
    assert_eq!(rt; clock.left(Side::First), 1_000);
    assert_eq!(rt; clock.left(Side::Second), 2_000);
    Ok(())
}

#[test]
fn delay_table(rt: HostRuntime) -> Result<(), Fail> {
    let plain = TwoTimers {
        first: Plain::new(1_000)?,
        second: Plain::new(1_000)?,
    };
    let mut clock = delayed(plain, 300, 0)?;
    run_side(
        &rt,
        &mut clock,
        Side::First,
        1_300,
        &[
            (200, true, 1_300),
            (500, true, 1_100),
            (1_101, false, 1_100),
            (1_100, false, 1_100),
            (1_099, true, 301),
            (300, true, 301),
            (301, false, 301),
        ],
    )?;
    run_side(
        &rt,
        &mut clock,
        Side::Second,
        1_000,
        &[(4_294_967_295, false, 1_000), (999, true, 1), (0, true, 1)],
    )?;
    clock.reset();
    assert_eq!(rt; clock.left(Side::First), 1_300);
    assert_eq!(rt; clock.left(Side::Second), 1_000);
    Ok(())
}

#[test]
fn delay_over_delay(rt: HostRuntime) -> Result<(), Fail> {
    let plain = TwoTimers {
        first: Plain::new(1_000)?,
        second: Plain::new(5_000)?,
    };
    let lower = delayed(plain, 300, 100)?;
    let mut clock = delayed(lower, 200, 50)?;
    run_side(
        &rt,
        &mut clock,
        Side::First,
        1_500,
        &[
            (600, true, 1_400),
            (500, true, 1_400),
            (1_400, false, 1_400),
            (1_399, true, 501),
            (500, true, 501),
        ],
    )?;
    run_side(
        &rt,
        &mut clock,
        Side::Second,
        5_150,
        &[(151, true, 5_149), (5_149, false, 5_149)],
    )
}

#[test]
fn delay_over_japanese(rt: HostRuntime) -> Result<(), Fail> {
    let japanese = TwoTimers {
        first: Japanese::new(1_000, 3, 500)?,
        second: Japanese::new(0, 1, 500)?,
    };
    let mut clock = delayed(japanese, 10, 20)?;
    run_side(
        &rt,
        &mut clock,
        Side::First,
        2_510,
        &[
            (1_509, true, 1_510),
            (510, true, 1_010),
            (1_010, false, 1_010),
        ],
    )?;
    run_side(
        &rt,
        &mut clock,
        Side::Second,
        520,
        &[(519, true, 520), (520, false, 520)],
    )
}

#[test]
fn delay_cap(rt: HostRuntime) -> Result<(), Fail> {
    for (below, left) in [
        (999_399_999u32, 999_999_999u32),
        (999_400_000, 1_000_000_000),
        (1_000_000_000, 1_000_000_000),
    ] {
        let still = Still { left: below };
        let clock = delayed(still, 600_000, 0)?;
        assert_eq!(rt; clock.left(Side::First), left);
        assert_eq!(rt; clock.left(Side::Second), below);
    }
    let lower = delayed(
        Still {
            left: 1_000_000_000,
        },
        600_000,
        1,
    )?;
    let mut pile = delayed(lower, 600_000, 1)?;
    run_side(
        &rt,
        &mut pile,
        Side::First,
        1_000_000_000,
        &[
            (1_000_000_000, false, 1_000_000_000),
            (999_999_999, true, 1_000_000_000),
        ],
    )
}
