// The players on examples, over a small game of the tests' own.
#![tactic(auto)]

mod pile;
#[cfg(test)]
mod tests;
