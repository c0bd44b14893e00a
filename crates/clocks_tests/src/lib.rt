// What the clocks do on examples: the ends of each range, the last reading in time, the cap, two sides, piles of layers.
#![tactic(auto)]

#[cfg(test)]
mod still;
#[cfg(test)]
mod tests;
