// What the players answer, and what follows from that. The code that plays stands above this crate.
#![tactic(auto)]
