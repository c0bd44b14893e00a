// The players: a script, a stepper over any rules, and an enum of the kinds.
#![tactic(auto)]

mod kinds;
mod scripts;
mod steppers;

pub use kinds::Kind;
pub use scripts::Script;
pub use steppers::Stepper;
