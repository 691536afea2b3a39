// The row of a copy from the row of its report, and the slots of a copy from those of the report's kind: each one changed up to the first
// of a tag above 797, 797's own in front of that one, and those behind it moved on by one.
ghost use Rattle.std.specs.Prelude.{◌≡◌, ◌≤◌, ◌||◌, eqb};
ghost use Rattle.feed.specs.Rows.{copy_value, copy_field, copy_row, longest as longest_of, copy_slot, copy_slots};

use crate::force::shown_row;
use decimal::Instrument;
use report::{Field, Shape, Slot, Value};

// The value of a field of a copy.
#[tactic(auto, unfolding(crate::specs::Rows::copy_value))]
fn copy_value(value: Value, tag: u64, number: u64, width: usize) -> Value
    ensures { result ≡ copy_value number width tag value }
{
    if tag == 34 {
        return Value::Number(number);
    }
    if tag == 17 {
        return Value::Number(number);
    }
    if tag == 109 {
        return Value::Stored {
            from: 0,
            len: width,
        };
    }
    value
}

// Whether a field of this tag is another in a copy.
fn is_new(tag: u64) -> bool
    ensures { result ≡ (eqb tag 34 || eqb tag 17 || eqb tag 109) }
{
    (tag == 34) | (tag == 17) | (tag == 109)
}

// A field of a copy.
#[tactic(auto, unfolding(crate::specs::Rows::copy_field))]
fn copy_field(field: Field, number: u64, width: usize) -> Field
    ensures { result ≡ copy_field number width field }
{
    let tag = field.tag;
    let old = field.value;
    let value = copy_value(old, tag, number, width);
    Field { tag, value }
}

// The row of a copy. A field is taken from the row only where it moves or changes; the others are passed by their tags.
pub fn copy_row(fields: [Field; 36], number: u64, width: usize) -> [Field; 36]
    ensures { result ≡ copy_row number width fields }
{
    let mut row = shown_row(fields);
    let mut held = Field {
        tag: 797,
        value: Value::Char(b'Y'),
    };
    let mut behind = false;
    for at in 0..35 {
        let first = row[at];
        let tag = first.tag;
        behind = behind | (tag > 797);
        if behind {
            let field = row[at];
            row[at] = held;
            held = field;
        } else if is_new(tag) {
            let field = row[at];
            row[at] = copy_field(field, number, width);
        }
    }
    row[35] = held;
    row
}

// How long the text of 109 may be.
pub fn longest(q: Instrument) -> usize
    ensures { (result ≡ longest_of q) × (result ≤ 30) }
{
    match q {
        Instrument::Bonds => 30,
        Instrument::Equities => 20,
    }
}

// A slot of a copy.
#[tactic(auto, unfolding(crate::specs::Rows::copy_slot))]
fn copy_slot(q: Instrument, slot: Slot) -> Slot
    ensures { result ≡ copy_slot q slot }
{
    if slot.tag == 109 {
        let most = longest(q);
        return Slot {
            tag: 109,
            optional: false,
            shape: Shape::Text { most, low: 33 },
        };
    }
    if slot.tag == 59 {
        return Slot {
            tag: 59,
            optional: false,
            shape: Shape::OneOf {
                a: 48,
                b: 51,
                c: 51,
                d: 51,
                e: 51,
            },
        };
    }
    slot
}

// The slots of a copy. Not one function with the row's: that takes a field only where it moves or changes, and this each slot. Both have an
// `else`: with `continue` in its place the compiler holds copies of all 36 on the stack.
pub fn copy_slots(q: Instrument, slots: [Slot; 36]) -> [Slot; 36]
    ensures { result ≡ copy_slots q slots }
{
    let mut all = slots;
    let mut held = Slot {
        tag: 797,
        optional: false,
        shape: Shape::OneOf {
            a: 89,
            b: 89,
            c: 89,
            d: 89,
            e: 89,
        },
    };
    let mut behind = false;
    for at in 0..35 {
        let slot = all[at];
        behind = behind | (slot.tag > 797);
        if behind {
            all[at] = held;
            held = slot;
        } else {
            all[at] = copy_slot(q, slot);
        }
    }
    all[35] = held;
    all
}
