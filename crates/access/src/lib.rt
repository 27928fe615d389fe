// Loads and stores of a tile slice.
#![tactic(auto)]

mod address;
mod load_store;
mod predicate;
mod reach;
mod window;

pub use load_store::access;
