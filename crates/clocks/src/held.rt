// What each timer and the layer hold: their settings, and what is left.
ghost use Rattle.std.specs.Prelude.{◌≤◌};

use side::PerSide;

// Time that only falls.
#[derive(Clone, Copy)]
pub struct Plain {
    pub(crate) main: u32,
    pub(crate) left: u32,
    ghost short: { main ≤ 86400000 },
    ghost some: { 1 ≤ left },
    ghost most: { left ≤ main },
}

// Time to which each turn adds an increment.
#[derive(Clone, Copy)]
pub struct Fischer {
    pub(crate) main: u32,
    pub(crate) increment: u32,
    pub(crate) left: u32,
    ghost begun: { 1 ≤ main },
    ghost short: { main ≤ 86400000 },
    ghost small: { increment ≤ 600000 },
    ghost some: { 1 ≤ left },
    ghost most: { left ≤ 1000000000 },
}

// Time that gives a turn's reading back, up to the delay.
// Fischer's fields but for a name: in one struct for both, `self.time.left` would stand for `self.left` in each line, no plainer.
#[derive(Clone, Copy)]
pub struct Bronstein {
    pub(crate) main: u32,
    pub(crate) delay: u32,
    pub(crate) left: u32,
    ghost begun: { 1 ≤ main },
    ghost short: { main ≤ 86400000 },
    ghost small: { delay ≤ 600000 },
    ghost some: { 1 ≤ left },
    ghost most: { left ≤ 1000000000 },
}

// Main time, then periods of one length, of which a turn takes whole ones only.
#[derive(Clone, Copy)]
pub struct Japanese {
    pub(crate) main: u32,
    pub(crate) periods: u32,
    pub(crate) length: u32,
    // the main time left
    pub(crate) rest: u32,
    // the periods left
    pub(crate) held: u32,
    ghost short: { main ≤ 86400000 },
    ghost few: { periods ≤ 100 },
    ghost long: { 1 ≤ length },
    ghost small: { length ≤ 600000 },
    ghost less: { rest ≤ main },
    ghost some: { 1 ≤ held },
    ghost most: { held ≤ periods },
}

// A clock some time of whose turns is free.
#[derive(Drop)]
pub struct Delay<C> {
    pub(crate) below: C,
    pub(crate) delays: PerSide<u32>,
    ghost first: { delays.first ≤ 600000 },
    ghost second: { delays.second ≤ 600000 },
}
