// The banks on examples.
#![tactic(auto)]

mod crowd;
#[cfg(test)]
mod tests;
