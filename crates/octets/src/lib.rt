// Numbers and texts at places of a slice of bytes: reading, writing, comparing, clearing.
#![tactic(auto)]

pub mod number;
pub mod part;
pub mod text;
pub mod zero;

pub use number::{le_at, put_le, wide};
pub use part::{copy_into, part_at, same};
pub use text::{put_text, text_at, text_is};
pub use zero::{all_zero, clear, put_zeros, rest_zero};
