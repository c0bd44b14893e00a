// How the players of a bank are numbered, and what follows from that. The banks stand above this crate.
#![tactic(auto)]

// Whose a number of two banks is, as that bank counts. No `Option` of two variants: each `match` would name two types for its three cases.
#[derive(Clone, Copy)]
pub enum Place {
    Low(usize),
    High(usize),
    Nowhere,
}
