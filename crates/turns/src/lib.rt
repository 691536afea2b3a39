// Run: steps of the order in work within a budget, as long as there is room for their reports.
#![tactic(auto)]

pub mod call;
pub mod events;
pub mod step;

pub use call::{run, steps};
