// The archive's record: a reader and a writer over lent bytes.
#![tactic(auto)]

pub mod content;
pub mod fault;
mod layout;
pub mod reader;
pub mod writer;
