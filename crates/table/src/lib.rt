// The table of a market: its heading, its list of MPIDs, its orders, lookups in it, its best levels, whom an order meets and what
// it would trade, and opening.
#![tactic(auto)]

pub mod best;
pub mod book;
pub mod entries;
pub mod event;
pub mod facing;
pub mod heading;
pub mod ids;
pub mod look;
pub mod opening;
pub mod places;
pub mod record;
