// Whether the bytes of a table are a market.
#![tactic(auto)]

pub mod book;
pub mod characters;
pub mod checks;
pub mod marks;
pub mod rank;
pub mod sound;
pub mod whole;

pub use whole::{is_market, is_market_of};
