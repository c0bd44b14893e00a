// Plays the games of standard input, one to a line, and says after each code what the rules say.
// A program made apart, apart/games.py, writes such games and what must be said of them.
#![tactic(auto)]

ghost use Rattle.std.specs.Prelude.{Some};
ghost use Rattle.games_apart.specs.Words.{step_word, chances_word};

use anyhow::{Context, bail};
use connect_four::ConnectFour;
use gomoku::Gomoku;
use nim::Nim;
use rules::Rules;
use side::{PerSide, Side};
use std::fmt;
use std::io::{BufRead, BufReader};

// What a line tells of: the start of a game, or one more code.
#[derive(Clone, Copy)]
enum Step {
    Start,
    Legal,
    Illegal,
}

impl fmt::Display for Step {
    ghost output = { λ s. Some (step_word s) };

    fn fmt<W: fmt::Write>(&self, f: &mut fmt::Formatter<W>) -> fmt::Result {
        f.write_str(match self {
            Step::Start => "start",
            Step::Legal => "legal",
            Step::Illegal => "illegal",
        })
    }
}

// Which sides have a chance.
#[derive(Clone, Copy)]
struct Chances(PerSide<bool>);

impl fmt::Display for Chances {
    ghost output = { λ c. Some (chances_word c) };

    fn fmt<W: fmt::Write>(&self, f: &mut fmt::Formatter<W>) -> fmt::Result {
        f.write_str(match (self.0.first, self.0.second) {
            (true, true) => "both",
            (true, false) => "first",
            (false, true) => "second",
            (false, false) => "none",
        })
    }
}

fn say<R: Rules>(rt: &HostRuntime, step: Step, rules: &R) -> anyhow::Result<()> {
    let status = rules.status();
    let chances = Chances(PerSide {
        first: rules.chance(Side::First),
        second: rules.chance(Side::Second),
    });
    println!(rt; "{step} {status} {chances}")?;
    Ok(())
}

// One line for the start, and one for each code.
fn play<R: Rules>(rt: &HostRuntime, rules: &mut R, codes: &str) -> anyhow::Result<()> {
    say(rt, Step::Start, rules)?;
    for word in codes.split_whitespace() {
        let legal = rules.make(word.parse()?);
        say(rt, if legal { Step::Legal } else { Step::Illegal }, rules)?;
    }
    Ok(())
}

fn play_nim(rt: &HostRuntime, heaps: &str, codes: &str) -> anyhow::Result<()> {
    let sizes: Vec<u8> = heaps
        .split_whitespace()
        .map(|word| -> anyhow::Result<u8> { Ok(word.parse()?) })
        .try_collect(rt.alloc())?;
    match Nim::new(sizes.as_slice()) {
        Ok(mut game) => play(rt, &mut game, codes),
        Err(refusal) => {
            println!(rt; "{refusal}")?;
            Ok(())
        }
    }
}

fn play_line(rt: &HostRuntime, line: &str) -> anyhow::Result<()> {
    let (game, codes) = line.split_once(':').context("a line without a colon")?;
    let (name, settings) = game.split_once(' ').unwrap_or((game, ""));
    match name {
        "nim" => play_nim(rt, settings, codes),
        "connect-four" => play(rt, &mut ConnectFour::new(), codes),
        "gomoku" => play(rt, &mut Gomoku::new(), codes),
        _ => bail!("an unknown game"),
    }
}

fn main(rt: HostRuntime) -> anyhow::Result<()> {
    for line in BufReader::new(rt.alloc(), rt.stdin())?.lines(rt.alloc()) {
        play_line(&rt, line?.as_str())?;
    }
    Ok(())
}
