// Four clocks, each written for one side; a timer for each side, which is a clock; and a delay over any clock.
#![tactic(auto)]

mod bronstein_timer;
mod delay_layer;
mod fischer_timer;
mod held;
mod japanese_timer;
mod plain_timer;
mod settings;
mod timer;
mod two_timers;

pub use held::{Bronstein, Delay, Fischer, Japanese, Plain};
pub use timer::Timer;
pub use two_timers::TwoTimers;
