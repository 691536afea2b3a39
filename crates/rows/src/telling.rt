// What makes an execution report an Accepted, a Replaced, a Canceled or a Trade.
ghost use Rattle.std.specs.Prelude.{◌≡◌};
ghost use Rattle.matching.specs.Held.{Covered};
ghost use Rattle.rows.specs.Parts.{accepted_told, replaced_told, canceled_told, traded_told};

use crate::{Fill, Ground, Shown, Told, replaced_status, trade_status};
use report::Value;

// Accepted.
pub fn accepted() -> Told
    ensures { result ≡ accepted_told }
{
    Told {
        status: b'0',
        kind: b'0',
        orig: Value::Absent,
        reason: Value::Absent,
        fill: None,
    }
}

// Replaced, as requested or by a decrement.
pub fn replaced(o: Shown, w: Ground) -> Told
    ensures { result ≡ replaced_told o w }
{
    let orig = w.orig;
    let reason = w.reason;
    let x = o.order;
    Told {
        status: 48 + (replaced_status(x) % 10) as u8,
        kind: b'5',
        orig,
        reason,
        fill: None,
    }
}

// Canceled.
pub fn canceled(w: Ground) -> Told
    ensures { result ≡ canceled_told w }
{
    let orig = w.orig;
    let reason = w.reason;
    Told {
        status: b'4',
        kind: b'4',
        orig,
        reason,
        fill: None,
    }
}

// A Trade.
pub fn traded(o: Shown, f: Fill) -> Told
    requires { Covered o.order }
    ensures { result ≡ traded_told o f }
{
    let x = o.order;
    let status = 48 + (trade_status(x) % 10) as u8;
    Told {
        status,
        kind: status,
        orig: Value::Absent,
        reason: Value::Absent,
        fill: Some(f),
    }
}
