// The time in force and the minimum quantity that a copy shows: those of the report, but of a Fill or Kill order Immediate or Cancel with the
// whole quantity as the minimum.
ghost use Rattle.std.specs.Prelude.{◌≡◌, map};
ghost use Rattle.feed.specs.Rows.{is_four, value_of, ioc_field, shown_row};

use report::{Field, Value};

// Whether a value is the character 4.
fn is_four(value: Value) -> bool
    ensures { result ≡ is_four value }
{
    let Value::Char(c) = value else {
        return false;
    };
    c == b'4'
}

// The value of a tag, absent where no field has it.
fn value_of(fields: [Field; 36], tag: u64) -> Value
    ensures { result ≡ value_of tag fields }
{
    for field in fields {
        if field.tag == tag {
            return field.value;
        }
    }
    Value::Absent
}

// A field of a Fill or Kill order with this quantity, as a copy shows it.
#[tactic(auto, unfolding(crate::specs::Rows::ioc_field, crate::specs::Rows::ioc_value))]
fn ioc_field(field: Field, quantity: Value) -> Field
    ensures { result ≡ ioc_field quantity field }
{
    let tag = field.tag;
    if tag == 59 {
        return Field {
            tag,
            value: Value::Char(b'3'),
        };
    }
    if tag == 110 {
        return Field {
            tag,
            value: quantity,
        };
    }
    field
}

// All fields of one.
fn ioc_row(fields: [Field; 36], quantity: Value) -> [Field; 36]
    ensures { result ≡ map (ioc_field quantity) fields }
{
    let mut row = fields;
    for i in 0..36 {
        let field = row[i];
        row[i] = ioc_field(field, quantity);
    }
    row
}

// The fields of a report, its 59 and 110 as a copy shows them.
#[tactic(auto, using(crate::proofs::Shown::shown_kill, crate::proofs::Shown::shown_still))]
pub fn shown_row(fields: [Field; 36]) -> [Field; 36]
    ensures { result ≡ shown_row fields }
{
    if is_four(value_of(fields, 59)) {
        return ioc_row(fields, value_of(fields, 38));
    }
    fields
}
