// The fields of a FIX message, and whether a message is garbled.
#![tactic(auto)]

pub mod fields;
pub mod frame;
pub mod pass;
pub mod tags;
