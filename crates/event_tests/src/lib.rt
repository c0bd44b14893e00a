// Who meets whom, and one game's turns, on examples.
#![tactic(auto)]

#[cfg(test)]
mod tests;
