// The fields of a body from the left: the first that fails, and what the others say, kept by tag in two rows; from these the
// first tag that clashes with others, and the first that is missing.
ghost use Rattle.std.specs.Prelude.{◌≡◌, [], ◌∷◌, ℕ, ◌+◌, ◌-◌, ◌^◌, ◌≤◌, ◌<◌, length, get_or};
ghost use Rattle.fix.specs.Fields.{fields_of};
ghost use Rattle.request.specs.declared.Kind.{Kind};
ghost use Rattle.request.specs.Session.{judge, needed, minimum_clashes, margin_clashes, first_clashing};
ghost use Rattle.request.specs.Gathers.{row_at, Starts, kept_says, kept_lens, Walked, has_row, text_row, terms_row, first_unset};

use crate::values::{in_kind, in_some, look};
use crate::{Fault, Kind, Reason, Terms};
use decimal::Instrument;
use fix::frame::Part;
use fix::pass::Seat;

// The length of a row. A tag's place is its remainder by it; those of the tags that some market lists differ.
pub const SLOTS: usize = 45;

// What the values of a body say, and how long each is, by tag.
#[derive(Clone, Copy)]
pub struct Rows {
    pub says: [u64; SLOTS],
    pub lens: [u64; SLOTS],
}

// What a row has for a tag.
fn in_row(row: &[u64; SLOTS], tag: u64) -> u64
    ensures { result ≡ row_at row.now tag }
{
    let j = tag as usize % SLOTS;
    row[j]
}

impl Rows {
    // What the value of the tag says.
    pub fn says(&self, tag: u64) -> u64
        ensures { result ≡ row_at self.now.says tag }
    {
        in_row(&self.says, tag)
    }

    // Whether the message has a tag: its value has a length.
    pub fn has(&self, tag: u64) -> bool
        ensures { result ≡ has_row self.now.lens tag }
    {
        in_row(&self.lens, tag) != 0
    }

    // Where the text of a tag stands.
    pub fn text(&self, tag: u64) -> Part
        ensures { result ≡ text_row self.now.says self.now.lens tag }
    {
        Part {
            start: in_row(&self.says, tag) as usize,
            len: in_row(&self.lens, tag) as usize,
        }
    }

    // The numbers of a new order.
    pub fn terms(&self) -> Terms
        ensures { result ≡ terms_row self.now.says }
    {
        Terms {
            quantity: self.says(38),
            level: self.says(44),
            side: self.says(54),
            tif: self.says(59),
            capacity: self.says(47),
            class: self.says(8060),
            mpid: self.says(109),
            minqty: self.says(110),
            cash: self.says(544),
            margin: self.says(8214),
        }
    }

    // Keeps what a value says and its length, where its tag has nothing yet.
    fn keep(&mut self, tag: u64, n: u64, len: usize)
        ensures { (self.new.says ≡ kept_says self.old.says self.old.lens tag n)
            × (self.new.lens ≡ kept_lens self.old.lens tag len) }
    {
        let j = tag as usize % SLOTS;
        if self.lens[j] == 0 {
            self.says[j] = n;
            self.lens[j] = len as u64;
        }
    }
}

// What a field says, or why it fails: its value stands at place `start` of the body, which stands at place `from` of the
// message.
fn judged(
    q: Instrument,
    kind: Kind,
    b: &[u8],
    from: u64,
    tag: u64,
    start: usize,
    len: usize,
) -> Result<u64, Reason>
    requires { (from + start < 2 ^ 64) × (start + len ≤ length b.now) }
    ensures { result ≡ judge q kind b.now from (record { tag = tag; start = start; len = len }) }
{
    if !in_kind(q, kind, tag) {
        if in_some(q, tag) {
            return Err(Reason::TagNotDefined);
        }
        return Err(Reason::UndefinedTag);
    }
    if len == 0 {
        return Err(Reason::TagWithoutValue);
    }
    look(q, from + start as u64, tag, &b[start..start + len])
}

// Goes over the fields of a body, which stands at place `from` of the message whose row of places this is: the first field that
// fails, or that none does. The rows take, for each listed tag, what its value says and how long it is.
pub fn gather(
    q: Instrument,
    kind: Kind,
    b: &[u8],
    from: usize,
    row: &[u16; 1023],
    rows: &mut Rows,
) -> Result<(), Fault>
    requires { Starts b.now row.now from rows.old.says rows.old.lens }
    ensures { Walked q kind b.now from result rows.new.says rows.new.lens }
{
    let mut c = Seat { number: 7 };
    while let Some(f) = c.step(row) {
        match judged(q, kind, b, from as u64, f.tag, f.start - from, f.len) {
            Ok(n) => rows.keep(f.tag, n, f.len),
            Err(reason) => return Err(Fault { reason, tag: f.tag }),
        }
        c = f.next;
    }
    Ok(())
}

// Whether 110 clashes with 59 or 38.
fn minimum_clashes(rows: &Rows) -> bool
    ensures { result ≡ minimum_clashes (has_row rows.now.lens) (row_at rows.now.says) }
{
    let tif = rows.says(59);
    let other = rows.has(59) & ((tif == 0) | (tif == 4));
    let above = rows.has(38) & (rows.says(38) < rows.says(110));
    rows.has(110) & (other | above)
}

// Whether 8214 clashes with 544.
fn margin_clashes(q: Instrument, rows: &Rows) -> bool
    ensures { result ≡ margin_clashes q (has_row rows.now.lens) (row_at rows.now.says) }
{
    match q {
        Instrument::Bonds => false,
        Instrument::Equities => rows.has(8214) & rows.has(544) & (rows.says(544) == 1),
    }
}

// The first tag whose value clashes with others.
pub fn clashing(q: Instrument, rows: &Rows) -> Option<u64>
    ensures { result ≡ first_clashing q (has_row rows.now.lens) (row_at rows.now.says) }
{
    if minimum_clashes(rows) {
        return Some(110);
    }
    if margin_clashes(q, rows) {
        return Some(8214);
    }
    None
}

// The first of the tags that has no length in the rows.
fn first_unset(tags: &[u64], rows: &Rows) -> Option<u64>
    ensures { result ≡ first_unset tags.now rows.now.lens }
{
    for t in tags {
        if !rows.has(*t) {
            return Some(*t);
        }
    }
    None
}

// The smallest tag that a new order needs and the body lacks.
fn missing_new(q: Instrument, rows: &Rows) -> Option<u64>
    ensures { result ≡ first_unset (needed q Kind.NewOrder) rows.now.lens }
{
    match q {
        Instrument::Bonds => first_unset(&[11, 21, 38, 40, 44, 47, 54, 55, 59, 60, 8060], rows),
        Instrument::Equities => first_unset(
            &[11, 21, 38, 40, 44, 47, 54, 55, 59, 60, 544, 8060],
            rows,
        ),
    }
}

// The smallest tag that the type needs and the body lacks.
pub fn missing(q: Instrument, kind: Kind, rows: &Rows) -> Option<u64>
    ensures { result ≡ first_unset (needed q kind) rows.now.lens }
{
    match kind {
        Kind::NewOrder => missing_new(q, rows),
        Kind::Replacement => first_unset(&[11, 21, 38, 40, 41, 44, 54, 55, 60], rows),
        Kind::Cancel => first_unset(&[11, 41, 54, 55, 60], rows),
        Kind::Unknown => None,
    }
}
