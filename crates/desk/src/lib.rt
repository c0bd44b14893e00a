// The desk: rules, clock and bank, as one game's turns are gone through and made.
#![tactic(auto)]

pub mod desk;
pub mod opponents;
