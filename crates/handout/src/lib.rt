// Hand-out: requests, and the answers that a reader gets to them from a store.
#![tactic(auto)]

pub mod answers;
pub mod requests;
