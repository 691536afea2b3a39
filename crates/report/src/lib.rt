// Reports: rows of fields, their bytes, and reading them back.
#![tactic(auto)]

pub mod parse;
pub mod read;
pub mod slots;
pub mod values;
pub mod write;

use decimal::Instrument;

// The value of a field. A word has three or four characters: the fourth is 0 where there are three. A text is a part of one of two
// slices that are lent with a row: the message that was sent (or the report that was read), or the table where texts are stored. A
// level and a mean say what is traded, since that decides how they are written.
#[derive(Clone, Copy)]
pub enum Value {
    Absent,
    Number(u64),
    Char(u8),
    Word { w: u8, x: u8, y: u8, z: u8 },
    Sent { from: usize, len: usize },
    Stored { from: usize, len: usize },
    Level { of: Instrument, level: u64 },
    Mean { of: Instrument, mean: u64 },
}

// A field: its tag and its value. One whose value is absent is not written.
#[derive(Clone, Copy)]
pub struct Field {
    pub tag: u64,
    pub value: Value,
}

// Where a text stands: in the message that caused the report, or else in the table where it is stored; its first byte and how
// many there are. The flag says which of the two slices, not whether there is a text.
#[derive(Clone, Copy)]
pub struct Place {
    pub sent: bool,
    pub start: usize,
    pub length: usize,
}

// What the value of a field may be: one of five characters; a number in a range; one of eight numbers; a word; an OrderID, or
// NONE; a text of at most so many characters from one on to 7E hex; 1 to 9 digits; a time; a yield or a price; AvgPx. The five and the
// eight stand one by one, since an array is a list of any length in a definition.
#[derive(Clone, Copy)]
pub enum Shape {
    Nothing,
    OneOf {
        a: u8,
        b: u8,
        c: u8,
        d: u8,
        e: u8,
    },
    Range {
        least: u64,
        most: u64,
    },
    Listed {
        a: u8,
        b: u8,
        c: u8,
        d: u8,
        e: u8,
        f: u8,
        g: u8,
        h: u8,
    },
    Exact {
        w: u8,
        x: u8,
        y: u8,
        z: u8,
    },
    OrderId,
    Text {
        most: usize,
        low: u8,
    },
    Digits,
    Time,
    Level {
        of: Instrument,
    },
    Average {
        of: Instrument,
    },
}

// A place for a field in a kind of report.
#[derive(Clone, Copy)]
pub struct Slot {
    pub tag: u64,
    pub optional: bool,
    pub shape: Shape,
}

// The value of a field that was read, and the place behind the field.
#[derive(Clone, Copy)]
pub struct Got {
    pub value: Value,
    pub next: usize,
}

// The fields of a row that was read, and the place behind them.
#[derive(Clone, Copy)]
pub struct Row {
    pub next: usize,
    pub fields: [Field; 36],
}

// The kinds of reports, and what is none: `Refused` is a kind, since the theorems above speak of the kind and the fields of any bytes.
#[derive(Clone, Copy)]
pub enum Kind {
    Accepted,
    Replaced,
    Canceled,
    Trade,
    Rejected,
    CancelReject,
    SessionReject,
    Refused,
}

// A report that was read: its kind and its fields, in the order of its kind's slots.
#[derive(Clone, Copy)]
pub struct Reading {
    pub kind: Kind,
    pub fields: [Field; 36],
}
