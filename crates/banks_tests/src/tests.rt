use crate::crowd::Crowd;
use banks::{Alone, Bench, TwoBanks};
use player::{Bank, Player};
use players::Script;
use side::Side;
use std::alloc::{AllocError, Global};
use std::process::Abort;
use std::test::Fail;

// As in other crates' tests: a crate of its own for these lines would be no plainer.
fn script(heap: Global, code: u16) -> Result<Script, AllocError> {
    Ok(Script::new(Vec::from_slice(heap, &[code])?))
}

// A bank of one player, who answers a code twice and then resigns.
fn alone(heap: Global, code: u16) -> Result<Alone<Script>, AllocError> {
    Ok(Alone::new(script(heap, code)?))
}

type Pair = TwoBanks<Alone<Script>, Alone<Script>>;

fn pair(heap: Global, first: u16, second: u16) -> Result<Pair, AllocError> {
    Ok(TwoBanks::new(alone(heap, first)?, alone(heap, second)?))
}

// Five players: a bank of two banks, then one player and two more.
fn five(heap: Global) -> Result<TwoBanks<Pair, TwoBanks<Alone<Script>, Pair>>, AllocError> {
    let front = pair(heap, 10, 11)?;
    let back = TwoBanks::new(alone(heap, 12)?, pair(heap, 13, 14)?);
    Ok(TwoBanks::new(front, back))
}

fn bench(heap: Global, codes: &[u16]) -> Result<Bench<Script>, AllocError> {
    let mut bench = Bench::new(heap);
    for code in codes {
        let _ = bench.add(script(heap, *code)?);
    }
    Ok(bench)
}

// The numbers from 0 on answer these codes.
fn answers<B: Bank>(rt: &impl Abort, bank: &B, codes: &[u16]) {
    for (number, code) in codes.iter().enumerate() {
        assert_eq!(rt; bank.choose(number), *code);
    }
}

// Shows a player so many codes that its script is over, and then resets it: the numbers answer as given before, between and after.
fn wears<B: Bank + Drop>(rt: &impl Abort, mut bank: B, number: usize, fresh: &[u16], worn: &[u16]) {
    answers(rt, &bank, fresh);
    bank.show(number, 1);
    bank.show(number, 2);
    answers(rt, &bank, worn);
    bank.reset(number, Side::Second);
    answers(rt, &bank, fresh);
}

// How many it holds, and what its last number and the next one answer.
fn ends<B: Bank + Drop>(rt: &impl Abort, bank: B, held: usize, last: u16) {
    assert_eq!(rt; bank.count(), held);
    assert_eq!(rt; bank.choose(held.saturating_sub(1)), last);
    assert_eq!(rt; bank.choose(held), 65_534);
    assert_eq!(rt; bank.choose(usize::MAX), 65_534);
}

#[test]
fn one_player(rt: HostRuntime) -> Result<(), Fail> {
    ends(&rt, alone(rt.alloc(), 7)?, 1, 7);
    wears(
        &rt,
        alone(rt.alloc(), 7)?,
        0,
        &[7, 65_534, 65_534],
        &[65_534, 65_534, 65_534],
    );
    Ok(())
}

#[test]
fn one_player_has_no_number_one(rt: HostRuntime) -> Result<(), Fail> {
    wears(&rt, alone(rt.alloc(), 7)?, 1, &[7, 65_534], &[7, 65_534]);
    Ok(())
}

#[test]
fn banks_of_banks_of_banks(rt: HostRuntime) -> Result<(), Fail> {
    ends(&rt, five(rt.alloc())?, 5, 14);
    wears(
        &rt,
        five(rt.alloc())?,
        0,
        &[10, 11, 12, 13, 14],
        &[65_534, 11, 12, 13, 14],
    );
    wears(
        &rt,
        five(rt.alloc())?,
        3,
        &[10, 11, 12, 13, 14, 65_534],
        &[10, 11, 12, 65_534, 14, 65_534],
    );
    Ok(())
}

#[test]
fn numbers_not_held(rt: HostRuntime) -> Result<(), Fail> {
    wears(
        &rt,
        pair(rt.alloc(), 10, 11)?,
        2,
        &[10, 11, 65_534],
        &[10, 11, 65_534],
    );
    wears(
        &rt,
        pair(rt.alloc(), 10, 11)?,
        65_535,
        &[10, 11, 65_534],
        &[10, 11, 65_534],
    );
    Ok(())
}

#[test]
fn never_over_65535(rt: HostRuntime) -> Result<(), Fail> {
    ends(&rt, TwoBanks::new(Crowd::new(1), Crowd::new(2)), 65_535, 1);
    ends(
        &rt,
        TwoBanks::new(alone(rt.alloc(), 7)?, Crowd::new(2)),
        65_535,
        2,
    );
    Ok(())
}

#[test]
fn bench_of_three(rt: HostRuntime) -> Result<(), Fail> {
    ends(&rt, bench(rt.alloc(), &[20, 21, 22])?, 3, 22);
    wears(
        &rt,
        bench(rt.alloc(), &[20, 21, 22])?,
        1,
        &[20, 21, 22, 65_534],
        &[20, 65_534, 22, 65_534],
    );
    wears(
        &rt,
        bench(rt.alloc(), &[20, 21, 22])?,
        3,
        &[20, 21, 22],
        &[20, 21, 22],
    );
    Ok(())
}

#[test]
fn empty_bench(rt: HostRuntime) -> Result<(), Fail> {
    ends(&rt, bench(rt.alloc(), &[])?, 0, 65_534);
    ends(
        &rt,
        TwoBanks::new(bench(rt.alloc(), &[])?, alone(rt.alloc(), 9)?),
        1,
        9,
    );
    Ok(())
}
