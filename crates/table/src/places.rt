// The byte places and sizes of a table, by the names of specs/Places.antt, for every function that reads or writes one: 256 records of
// 128 bytes, record 0 the heading, records 1 to 255 the orders. docs/TABLE.md has the same as a table.

// Bytes of a table.
pub const TABLE: usize = 32768;

// Bytes of a record.
pub const RECORD: usize = 128;

// The most orders that a table holds.
pub const MOST_ORDERS: usize = 255;

// The heading, from the start of the table: the venue id, a length byte and room for its characters.
pub const VENUE: usize = 0;

// The port id, likewise.
pub const PORT: usize = 9;

// The room of these two.
pub const ID_ROOM: usize = 8;

// The code of the bond or the symbol of the share, a length byte and room for its characters.
pub const CODE: usize = 18;

pub const CODE_ROOM: usize = 9;

// The next report number, 4 bytes.
pub const NEXT: usize = 28;

// The order in work, 1 byte.
pub const WORK: usize = 32;

// Behind it the 52 of its message, a length byte and room for its characters.
pub const STAMP: usize = 33;

pub const STAMP_ROOM: usize = 21;

// The first character of that 52.
pub const STAMP_TEXT: usize = STAMP + 1;

// All bytes of that 52.
pub const STAMP_BYTES: usize = 1 + STAMP_ROOM;

// All bytes of the order in work with its 52.
pub const WORK_BYTES: usize = 1 + STAMP_BYTES;

// What the market trades, 1 byte: 0 bonds, 1 equities.
pub const KIND: usize = 55;

// The MPIDs, 4 bytes each.
pub const MPIDS: usize = 56;

// Their modes, 1 byte each.
pub const MODES: usize = 88;

pub const MOST_MPIDS: usize = 8;

// The decision on the minimum of the order in work, 1 byte.
pub const DECIDED: usize = 96;

// The best level of each side, up to the end of the heading, and all its bytes.
pub const BEST: usize = 97;

pub const BEST_BYTES: usize = 31;

// The numbers of orders of the best buy and the best sell level, 1 byte each, and an unused byte.
pub const BUY_ORDERS: usize = 97;

pub const SELL_ORDERS: usize = 98;

pub const ORDERS_SPARE: usize = 99;

// Their levels, 4 bytes each, and four unused bytes.
pub const BUY_LEVEL: usize = 100;

pub const SELL_LEVEL: usize = 104;

pub const LEVELS_SPARE: usize = 108;

// Their totals, 8 bytes each.
pub const BUY_TOTAL: usize = 112;

pub const SELL_TOTAL: usize = 120;

// An order, from the start of its record, where the ClOrdID stands: a length byte and room for its characters.
pub const CL_ORD_ID_ROOM: usize = 32;

// The account, a length byte and room for its characters.
pub const ACCOUNT: usize = 33;

pub const ACCOUNT_ROOM: usize = 10;

// Side, time in force, capacity and classification, 1 byte each.
pub const SIDE: usize = 44;

pub const TIF: usize = 45;

pub const CAPACITY: usize = 46;

pub const CLASS: usize = 47;

// The terms that a replacement sets, 4 bytes each: level, OrderQty, place.
pub const LEVEL: usize = 48;

pub const QTY: usize = 52;

pub const PLACE: usize = 56;

// The MPID, 4 bytes.
pub const MPID: usize = 60;

// The amounts that matching changes: the sum of quantity times level, 8 bytes.
pub const SUM: usize = 64;

// Executed, decremented and canceled, 4 bytes each.
pub const EXECUTED: usize = 72;

pub const DECREMENTED: usize = 76;

pub const CANCELED: usize = 80;

// The OrderID, 4 bytes.
pub const ORDER_ID: usize = 84;

// MinQty as it was sent, 4 bytes.
pub const MIN_QTY: usize = 88;

// CashMargin and MarginTransactionType as they were sent, 1 byte each.
pub const CASH: usize = 92;

pub const MARGIN: usize = 93;

// The first of the unused bytes up to the end of the record, and how many they are.
pub const RECORD_END: usize = 94;

pub const RECORD_SPARE: usize = 34;
