// The sizes of an image. Block k starts at byte BLOCK * k of the image, and has the table's bytes from DATA * k on.
pub const IMAGE: usize = 33280;

pub const BLOCKS: usize = 65;

pub const BLOCK: usize = 512;

pub const DATA: usize = 508;

// Bytes of a check.
pub const CHECK: usize = 4;

// What the number of a block counts in its check.
pub const STEP: u64 = 33554432;

// A table is copied in so many pieces, each of so many bytes.
pub const PIECES: usize = 8;

pub const PIECE: usize = 4096;
