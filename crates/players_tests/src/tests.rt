use crate::pile::Pile;
use banks::Bench;
use player::{Bank, Player};
use players::{Kind, Script, Stepper};
use rules::Rules;
use side::Side;
use std::alloc::{AllocError, Global};
use std::process::Abort;
use std::test::Fail;

// As in other crates' tests: a crate of its own for these lines would be no plainer.
fn script(heap: Global, codes: &[u16]) -> Result<Script, AllocError> {
    Ok(Script::new(Vec::from_slice(heap, codes)?))
}

// The player answers each code in turn, and is shown some code after each answer.
fn answers<P: Player>(rt: &impl Abort, player: &mut P, codes: &[u16]) {
    for code in codes {
        assert_eq!(rt; player.choose(), *code);
        player.show(40_000);
    }
}

#[test]
fn script_answers_each_entry_twice(rt: HostRuntime) -> Result<(), Fail> {
    let mut player = script(rt.alloc(), &[5, 7, 65_535])?;
    answers(
        &rt,
        &mut player,
        &[5, 5, 7, 7, 65_535, 65_535, 65_534, 65_534, 65_534],
    );
    Ok(())
}

#[test]
fn empty_script_resigns(rt: HostRuntime) -> Result<(), Fail> {
    let mut player = script(rt.alloc(), &[])?;
    answers(&rt, &mut player, &[65_534, 65_534, 65_534]);
    player.reset(Side::Second);
    answers(&rt, &mut player, &[65_534]);
    Ok(())
}

#[test]
fn script_begins_again(rt: HostRuntime) -> Result<(), Fail> {
    let mut player = script(rt.alloc(), &[5, 7])?;
    answers(&rt, &mut player, &[5, 5, 7, 7, 65_534, 65_534]);
    player.reset(Side::Second);
    answers(&rt, &mut player, &[5, 5, 7]);
    player.reset(Side::First);
    answers(&rt, &mut player, &[5]);
    Ok(())
}

#[test]
fn choosing_changes_nothing(rt: HostRuntime) -> Result<(), Fail> {
    let player = script(rt.alloc(), &[5, 7])?;
    assert_eq!(rt; player.choose(), player.choose());
    let stepper = Stepper::new(Pile::new(4)?, 3)?;
    assert_eq!(rt; stepper.choose(), 3);
    assert_eq!(rt; stepper.choose(), 3);
    Ok(())
}

#[test]
fn stepper_goes_past_the_last_legal_code(rt: HostRuntime) -> Result<(), Fail> {
    let mut stepper = Stepper::new(Pile::new(5)?, 2)?;
    assert_eq!(rt; stepper.choose(), 2);
    stepper.show(2);
    assert_eq!(rt; stepper.choose(), 2);
    stepper.show(2);
    assert_eq!(rt; stepper.choose(), 1, "2 is legal no more");
    stepper.show(1);
    assert_eq!(rt; stepper.choose(), 65_534, "the game has ended");
    stepper.show(1);
    assert_eq!(rt; stepper.choose(), 65_534);
    Ok(())
}

#[test]
fn stepper_passes_over_illegal_codes(rt: HostRuntime) -> Result<(), Fail> {
    let mut stepper = Stepper::new(Pile::new(5)?, 4)?;
    stepper.show(0);
    stepper.show(6);
    stepper.show(65_535);
    assert_eq!(rt; stepper.choose(), 4);
    stepper.show(1);
    assert_eq!(rt; stepper.choose(), 4);
    stepper.show(1);
    assert_eq!(rt; stepper.choose(), 1);
    stepper.reset(Side::Second);
    assert_eq!(rt; stepper.choose(), 4);
    Ok(())
}

#[test]
fn stepper_at_each_step(rt: HostRuntime) -> Result<(), Fail> {
    for (step, code) in [(0, 1), (1, 1), (9, 9), (10, 1), (65_533, 1)] {
        assert_eq!(rt; Stepper::new(Pile::new(9)?, step)?.choose(), code);
    }
    Ok(())
}

#[test]
fn steps_out_of_range(rt: HostRuntime) -> Result<(), Fail> {
    for step in [65_534, 65_535] {
        let refused = Stepper::new(Pile::new(9)?, step).err();
        assert_eq!(rt; refused.map(|refusal| refusal.number()), Some(10));
    }
    Ok(())
}

fn stepper_kind(step: u16) -> Result<Kind<Pile>, Fail> {
    Ok(Kind::Stepper(Stepper::new(Pile::new(5)?, step)?))
}

#[test]
fn kinds_answer_as_what_they_hold(rt: HostRuntime) -> Result<(), Fail> {
    let mut player = Kind::<Pile>::Script(script(rt.alloc(), &[3, 1])?);
    let mut stepper = stepper_kind(3)?;
    answers(&rt, &mut player, &[3, 3, 1, 1, 65_534]);
    player.reset(Side::First);
    answers(&rt, &mut player, &[3]);
    assert_eq!(rt; stepper.choose(), 3);
    stepper.show(3);
    assert_eq!(rt; stepper.choose(), 1);
    stepper.reset(Side::First);
    assert_eq!(rt; stepper.choose(), 3);
    Ok(())
}

#[test]
fn bench_of_kinds(rt: HostRuntime) -> Result<(), Fail> {
    let mut bench = Bench::new(rt.alloc());
    let _ = bench.add(Kind::Script(script(rt.alloc(), &[3, 1])?));
    let _ = bench.add(stepper_kind(2)?);
    assert_eq!(rt; bench.count(), 2);
    assert_eq!(rt; bench.choose(0), 3);
    assert_eq!(rt; bench.choose(1), 2);
    bench.show(1, 4);
    assert_eq!(rt; bench.choose(0), 3);
    assert_eq!(rt; bench.choose(1), 1);
    bench.reset(1, Side::First);
    assert_eq!(rt; bench.choose(1), 2);
    Ok(())
}
