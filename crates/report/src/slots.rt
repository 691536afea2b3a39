// The kinds of reports as tables of slots: which tags, in which order, which may be missing, and what their values may be. A slot is
// named after its field; those that depend on what is traded are functions of it.
ghost use Rattle.std.specs.Prelude.{◌≡◌};
ghost use Rattle.report.specs.declared.Shape.TheVariants as shape;
ghost use Rattle.report.specs.Fields.{group_of};
ghost use Rattle.report.specs.Slots.{always, exact, sides, symbols, own_slot, last_slot, other_slot, count_slot, slots_of, accepted_slots, replaced_slots, canceled_slots, trade_slots, rejected_slots, cancel_reject_slots, session_reject_slots};

use crate::{Kind, Shape, Slot};
use decimal::Instrument;

// No field.
const UNUSED: Slot = Slot {
    tag: 0,
    optional: true,
    shape: Shape::Nothing,
};

// 35 of an execution report.
const EXECUTION_REPORT: Slot = Slot {
    tag: 35,
    optional: false,
    shape: Shape::OneOf {
        a: 56,
        b: 56,
        c: 56,
        d: 56,
        e: 56,
    },
};

// 34.
const MSG_SEQ_NUM: Slot = Slot {
    tag: 34,
    optional: false,
    shape: Shape::Range {
        least: 1,
        most: 999999999,
    },
};

// 49.
const SENDER_COMP_ID: Slot = Slot {
    tag: 49,
    optional: false,
    shape: Shape::Text { most: 8, low: 33 },
};

// 52.
const SENDING_TIME: Slot = Slot {
    tag: 52,
    optional: false,
    shape: Shape::Time,
};

// 56.
const TARGET_COMP_ID: Slot = Slot {
    tag: 56,
    optional: false,
    shape: Shape::Text { most: 8, low: 33 },
};

// 1.
const ACCOUNT: Slot = Slot {
    tag: 1,
    optional: true,
    shape: Shape::Text { most: 10, low: 32 },
};

// 11.
const CL_ORD_ID: Slot = Slot {
    tag: 11,
    optional: false,
    shape: Shape::Text { most: 32, low: 32 },
};

// 14.
const CUM_QTY: Slot = Slot {
    tag: 14,
    optional: false,
    shape: Shape::Range {
        least: 0,
        most: 999999999,
    },
};

// 17.
const EXEC_ID: Slot = Slot {
    tag: 17,
    optional: false,
    shape: Shape::Range {
        least: 1,
        most: 999999999,
    },
};

// 20.
const EXEC_TRANS_TYPE: Slot = Slot {
    tag: 20,
    optional: false,
    shape: Shape::OneOf {
        a: 48,
        b: 48,
        c: 48,
        d: 48,
        e: 48,
    },
};

// 37.
const ORDER_ID: Slot = Slot {
    tag: 37,
    optional: false,
    shape: Shape::Range {
        least: 1,
        most: 999999999,
    },
};

// 38.
const ORDER_QTY: Slot = Slot {
    tag: 38,
    optional: false,
    shape: Shape::Range {
        least: 0,
        most: 999999999,
    },
};

// 40.
const ORD_TYPE: Slot = Slot {
    tag: 40,
    optional: false,
    shape: Shape::OneOf {
        a: 50,
        b: 50,
        c: 50,
        d: 50,
        e: 50,
    },
};

// 41, where it is always there.
const ORIG_CL_ORD_ID: Slot = Slot {
    tag: 41,
    optional: false,
    shape: Shape::Text { most: 32, low: 32 },
};

// 47.
const RULE_80A: Slot = Slot {
    tag: 47,
    optional: false,
    shape: Shape::OneOf {
        a: 65,
        b: 80,
        c: 80,
        d: 80,
        e: 80,
    },
};

// 59.
const TIME_IN_FORCE: Slot = Slot {
    tag: 59,
    optional: false,
    shape: Shape::OneOf {
        a: 48,
        b: 51,
        c: 52,
        d: 52,
        e: 52,
    },
};

// 60.
const TRANSACT_TIME: Slot = Slot {
    tag: 60,
    optional: false,
    shape: Shape::Time,
};

// 109.
const CLIENT_ID: Slot = Slot {
    tag: 109,
    optional: true,
    shape: Shape::Range {
        least: 1,
        most: 999999,
    },
};

// 110.
const MIN_QTY: Slot = Slot {
    tag: 110,
    optional: true,
    shape: Shape::Range {
        least: 0,
        most: 999999999,
    },
};

// 151.
const LEAVES_QTY: Slot = Slot {
    tag: 151,
    optional: false,
    shape: Shape::Range {
        least: 0,
        most: 999999999,
    },
};

// 8060.
const ORDER_CLASSIFICATION: Slot = Slot {
    tag: 8060,
    optional: false,
    shape: Shape::OneOf {
        a: 49,
        b: 51,
        c: 52,
        d: 53,
        e: 54,
    },
};

// 39 of an Accepted.
const ORD_STATUS_ACCEPTED: Slot = Slot {
    tag: 39,
    optional: false,
    shape: Shape::OneOf {
        a: 48,
        b: 48,
        c: 48,
        d: 48,
        e: 48,
    },
};

// 150 of an Accepted.
const EXEC_TYPE_ACCEPTED: Slot = Slot {
    tag: 150,
    optional: false,
    shape: Shape::OneOf {
        a: 48,
        b: 48,
        c: 48,
        d: 48,
        e: 48,
    },
};

// 39 of a Replaced.
const ORD_STATUS_REPLACED: Slot = Slot {
    tag: 39,
    optional: false,
    shape: Shape::OneOf {
        a: 49,
        b: 53,
        c: 53,
        d: 53,
        e: 53,
    },
};

// 150 of a Replaced.
const EXEC_TYPE_REPLACED: Slot = Slot {
    tag: 150,
    optional: false,
    shape: Shape::OneOf {
        a: 53,
        b: 53,
        c: 53,
        d: 53,
        e: 53,
    },
};

// 378 of a Replaced.
const REASON_REPLACED: Slot = Slot {
    tag: 378,
    optional: true,
    shape: Shape::Listed {
        a: 100,
        b: 100,
        c: 100,
        d: 100,
        e: 100,
        f: 100,
        g: 100,
        h: 100,
    },
};

// 39 of a Canceled.
const ORD_STATUS_CANCELED: Slot = Slot {
    tag: 39,
    optional: false,
    shape: Shape::OneOf {
        a: 52,
        b: 52,
        c: 52,
        d: 52,
        e: 52,
    },
};

// 41 of a Canceled.
const ORIG_CANCELED: Slot = Slot {
    tag: 41,
    optional: true,
    shape: Shape::Text { most: 32, low: 32 },
};

// 150 of a Canceled.
const EXEC_TYPE_CANCELED: Slot = Slot {
    tag: 150,
    optional: false,
    shape: Shape::OneOf {
        a: 52,
        b: 52,
        c: 52,
        d: 52,
        e: 52,
    },
};

// 378 of a Canceled.
const REASON_CANCELED: Slot = Slot {
    tag: 378,
    optional: true,
    shape: Shape::Listed {
        a: 99,
        b: 100,
        c: 100,
        d: 100,
        e: 100,
        f: 100,
        g: 100,
        h: 100,
    },
};

// 32.
const LAST_SHARES: Slot = Slot {
    tag: 32,
    optional: false,
    shape: Shape::Range {
        least: 0,
        most: 999999999,
    },
};

// 39 of a Trade.
const ORD_STATUS_TRADE: Slot = Slot {
    tag: 39,
    optional: false,
    shape: Shape::OneOf {
        a: 49,
        b: 50,
        c: 50,
        d: 50,
        e: 50,
    },
};

// 150 of a Trade.
const EXEC_TYPE_TRADE: Slot = Slot {
    tag: 150,
    optional: false,
    shape: Shape::OneOf {
        a: 49,
        b: 50,
        c: 50,
        d: 50,
        e: 50,
    },
};

// 851.
const LAST_LIQUIDITY_IND: Slot = Slot {
    tag: 851,
    optional: false,
    shape: Shape::Listed {
        a: 1,
        b: 2,
        c: 2,
        d: 2,
        e: 2,
        f: 2,
        g: 2,
        h: 2,
    },
};

// 880.
const TRD_MATCH_ID: Slot = Slot {
    tag: 880,
    optional: false,
    shape: Shape::Range {
        least: 1,
        most: 999999999,
    },
};

// 14 of a Rejected.
const CUM_QTY_REJECTED: Slot = Slot {
    tag: 14,
    optional: false,
    shape: Shape::Listed {
        a: 0,
        b: 0,
        c: 0,
        d: 0,
        e: 0,
        f: 0,
        g: 0,
        h: 0,
    },
};

// 37 of a Rejected.
const ORDER_ID_REJECTED: Slot = Slot {
    tag: 37,
    optional: false,
    shape: Shape::Exact {
        w: 78,
        x: 79,
        y: 78,
        z: 69,
    },
};

// 39 of a Rejected.
const ORD_STATUS_REJECTED: Slot = Slot {
    tag: 39,
    optional: false,
    shape: Shape::OneOf {
        a: 56,
        b: 56,
        c: 56,
        d: 56,
        e: 56,
    },
};

// 103.
const ORD_REJ_REASON: Slot = Slot {
    tag: 103,
    optional: false,
    shape: Shape::Listed {
        a: 0,
        b: 1,
        c: 6,
        d: 99,
        e: 99,
        f: 99,
        g: 99,
        h: 99,
    },
};

// 150 of a Rejected.
const EXEC_TYPE_REJECTED: Slot = Slot {
    tag: 150,
    optional: false,
    shape: Shape::OneOf {
        a: 56,
        b: 56,
        c: 56,
        d: 56,
        e: 56,
    },
};

// 151 of a Rejected.
const LEAVES_QTY_REJECTED: Slot = Slot {
    tag: 151,
    optional: false,
    shape: Shape::Listed {
        a: 0,
        b: 0,
        c: 0,
        d: 0,
        e: 0,
        f: 0,
        g: 0,
        h: 0,
    },
};

// 35 of a cancel reject.
const CANCEL_REJECT: Slot = Slot {
    tag: 35,
    optional: false,
    shape: Shape::OneOf {
        a: 57,
        b: 57,
        c: 57,
        d: 57,
        e: 57,
    },
};

// 37 of a cancel reject.
const ORDER_ID_CANCEL_REJECT: Slot = Slot {
    tag: 37,
    optional: false,
    shape: Shape::OrderId,
};

// 39 of a cancel reject.
const ORD_STATUS_CANCEL_REJECT: Slot = Slot {
    tag: 39,
    optional: false,
    shape: Shape::OneOf {
        a: 48,
        b: 49,
        c: 50,
        d: 52,
        e: 56,
    },
};

// 102.
const CXL_REJ_REASON: Slot = Slot {
    tag: 102,
    optional: false,
    shape: Shape::Listed {
        a: 0,
        b: 1,
        c: 2,
        d: 2,
        e: 2,
        f: 2,
        g: 2,
        h: 2,
    },
};

// 434.
const CXL_REJ_RESPONSE_TO: Slot = Slot {
    tag: 434,
    optional: false,
    shape: Shape::Listed {
        a: 1,
        b: 2,
        c: 2,
        d: 2,
        e: 2,
        f: 2,
        g: 2,
        h: 2,
    },
};

// 35 of a session Reject.
const SESSION_REJECT: Slot = Slot {
    tag: 35,
    optional: false,
    shape: Shape::OneOf {
        a: 51,
        b: 51,
        c: 51,
        d: 51,
        e: 51,
    },
};

// 45.
const REF_SEQ_NUM: Slot = Slot {
    tag: 45,
    optional: false,
    shape: Shape::Range {
        least: 1,
        most: 999999999,
    },
};

// 371.
const REF_TAG_ID: Slot = Slot {
    tag: 371,
    optional: false,
    shape: Shape::Range {
        least: 1,
        most: 9999,
    },
};

// 372.
const REF_MSG_TYPE: Slot = Slot {
    tag: 372,
    optional: false,
    shape: Shape::Text { most: 2, low: 32 },
};

// 373.
const SESSION_REJECT_REASON: Slot = Slot {
    tag: 373,
    optional: false,
    shape: Shape::Listed {
        a: 1,
        b: 2,
        c: 3,
        d: 4,
        e: 5,
        f: 6,
        g: 9,
        h: 11,
    },
};

// 50.
fn sender_sub_id(q: Instrument) -> Slot
    ensures { result ≡ always 50 (exact (group_of q)) }
{
    match q {
        Instrument::Bonds => Slot {
            tag: 50,
            optional: false,
            shape: Shape::Exact {
                w: 68,
                x: 74,
                y: 71,
                z: 66,
            },
        },
        Instrument::Equities => Slot {
            tag: 50,
            optional: false,
            shape: Shape::Exact {
                w: 68,
                x: 65,
                y: 89,
                z: 0,
            },
        },
    }
}

// 6.
fn avg_px(q: Instrument) -> Slot
    ensures { result ≡ always 6 (shape.Average q) }
{
    Slot {
        tag: 6,
        optional: false,
        shape: Shape::Average { of: q },
    }
}

// A yield or a price: 44, or 31.
fn quoted(tag: u64, q: Instrument) -> Slot
    ensures { result ≡ always tag (shape.Level q) }
{
    Slot {
        tag,
        optional: false,
        shape: Shape::Level { of: q },
    }
}

// 54.
fn side(q: Instrument) -> Slot
    ensures { result ≡ always 54 (sides q) }
{
    match q {
        Instrument::Bonds => Slot {
            tag: 54,
            optional: false,
            shape: Shape::OneOf {
                a: 49,
                b: 50,
                c: 50,
                d: 50,
                e: 50,
            },
        },
        Instrument::Equities => Slot {
            tag: 54,
            optional: false,
            shape: Shape::OneOf {
                a: 49,
                b: 50,
                c: 53,
                d: 54,
                e: 54,
            },
        },
    }
}

// 55.
fn symbol(q: Instrument) -> Slot
    ensures { result ≡ always 55 (symbols q) }
{
    match q {
        Instrument::Bonds => Slot {
            tag: 55,
            optional: false,
            shape: Shape::Digits,
        },
        Instrument::Equities => Slot {
            tag: 55,
            optional: false,
            shape: Shape::Text { most: 9, low: 32 },
        },
    }
}

// 423 or 544.
fn own(q: Instrument) -> Slot
    ensures { result ≡ own_slot q }
{
    match q {
        Instrument::Bonds => Slot {
            tag: 423,
            optional: false,
            shape: Shape::Listed {
                a: 9,
                b: 9,
                c: 9,
                d: 9,
                e: 9,
                f: 9,
                g: 9,
                h: 9,
            },
        },
        Instrument::Equities => Slot {
            tag: 544,
            optional: false,
            shape: Shape::OneOf {
                a: 49,
                b: 50,
                c: 51,
                d: 51,
                e: 51,
            },
        },
    }
}

// 8214, or no field.
fn last(q: Instrument) -> Slot
    ensures { result ≡ last_slot q }
{
    match q {
        Instrument::Bonds => UNUSED,
        Instrument::Equities => Slot {
            tag: 8214,
            optional: true,
            shape: Shape::OneOf {
                a: 49,
                b: 50,
                c: 50,
                d: 50,
                e: 50,
            },
        },
    }
}

// 375, or no field.
fn other(q: Instrument) -> Slot
    ensures { result ≡ other_slot q }
{
    match q {
        Instrument::Bonds => Slot {
            tag: 375,
            optional: false,
            shape: Shape::Range {
                least: 0,
                most: 999999,
            },
        },
        Instrument::Equities => UNUSED,
    }
}

// 382, or no field.
fn count(q: Instrument) -> Slot
    ensures { result ≡ count_slot q }
{
    match q {
        Instrument::Bonds => Slot {
            tag: 382,
            optional: false,
            shape: Shape::Listed {
                a: 1,
                b: 1,
                c: 1,
                d: 1,
                e: 1,
                f: 1,
                g: 1,
                h: 1,
            },
        },
        Instrument::Equities => UNUSED,
    }
}

// 7.5.1, Order Accepted.
fn accepted_slots(q: Instrument) -> [Slot; 36]
    ensures { result ≡ accepted_slots q }
{
    let group = sender_sub_id(q);
    let average = avg_px(q);
    let price = quoted(44, q);
    let side = side(q);
    let symbol = symbol(q);
    let own = own(q);
    let last = last(q);
    [
        EXECUTION_REPORT,
        MSG_SEQ_NUM,
        SENDER_COMP_ID,
        group,
        SENDING_TIME,
        TARGET_COMP_ID,
        ACCOUNT,
        average,
        CL_ORD_ID,
        CUM_QTY,
        EXEC_ID,
        EXEC_TRANS_TYPE,
        ORDER_ID,
        ORDER_QTY,
        ORD_STATUS_ACCEPTED,
        ORD_TYPE,
        price,
        RULE_80A,
        side,
        symbol,
        TIME_IN_FORCE,
        TRANSACT_TIME,
        CLIENT_ID,
        MIN_QTY,
        EXEC_TYPE_ACCEPTED,
        LEAVES_QTY,
        own,
        ORDER_CLASSIFICATION,
        last,
        UNUSED,
        UNUSED,
        UNUSED,
        UNUSED,
        UNUSED,
        UNUSED,
        UNUSED,
    ]
}

// 7.5.2, Order Replaced: requested, or a decrement with 378.
fn replaced_slots(q: Instrument) -> [Slot; 36]
    ensures { result ≡ replaced_slots q }
{
    let group = sender_sub_id(q);
    let average = avg_px(q);
    let price = quoted(44, q);
    let side = side(q);
    let symbol = symbol(q);
    let own = own(q);
    let last = last(q);
    [
        EXECUTION_REPORT,
        MSG_SEQ_NUM,
        SENDER_COMP_ID,
        group,
        SENDING_TIME,
        TARGET_COMP_ID,
        ACCOUNT,
        average,
        CL_ORD_ID,
        CUM_QTY,
        EXEC_ID,
        EXEC_TRANS_TYPE,
        ORDER_ID,
        ORDER_QTY,
        ORD_STATUS_REPLACED,
        ORD_TYPE,
        ORIG_CL_ORD_ID,
        price,
        RULE_80A,
        side,
        symbol,
        TIME_IN_FORCE,
        TRANSACT_TIME,
        CLIENT_ID,
        MIN_QTY,
        EXEC_TYPE_REPLACED,
        LEAVES_QTY,
        REASON_REPLACED,
        own,
        ORDER_CLASSIFICATION,
        last,
        UNUSED,
        UNUSED,
        UNUSED,
        UNUSED,
        UNUSED,
    ]
}

// 7.5.3, Order Canceled: requested with 41, else with 378.
fn canceled_slots(q: Instrument) -> [Slot; 36]
    ensures { result ≡ canceled_slots q }
{
    let group = sender_sub_id(q);
    let average = avg_px(q);
    let price = quoted(44, q);
    let side = side(q);
    let symbol = symbol(q);
    let own = own(q);
    let last = last(q);
    [
        EXECUTION_REPORT,
        MSG_SEQ_NUM,
        SENDER_COMP_ID,
        group,
        SENDING_TIME,
        TARGET_COMP_ID,
        ACCOUNT,
        average,
        CL_ORD_ID,
        CUM_QTY,
        EXEC_ID,
        EXEC_TRANS_TYPE,
        ORDER_ID,
        ORDER_QTY,
        ORD_STATUS_CANCELED,
        ORD_TYPE,
        ORIG_CANCELED,
        price,
        RULE_80A,
        side,
        symbol,
        TIME_IN_FORCE,
        TRANSACT_TIME,
        CLIENT_ID,
        MIN_QTY,
        EXEC_TYPE_CANCELED,
        LEAVES_QTY,
        REASON_CANCELED,
        own,
        ORDER_CLASSIFICATION,
        last,
        UNUSED,
        UNUSED,
        UNUSED,
        UNUSED,
        UNUSED,
    ]
}

// 7.5.4, Trade.
fn trade_slots(q: Instrument) -> [Slot; 36]
    ensures { result ≡ trade_slots q }
{
    let group = sender_sub_id(q);
    let average = avg_px(q);
    let last_price = quoted(31, q);
    let price = quoted(44, q);
    let side = side(q);
    let symbol = symbol(q);
    let other = other(q);
    let count = count(q);
    let own = own(q);
    let last = last(q);
    [
        EXECUTION_REPORT,
        MSG_SEQ_NUM,
        SENDER_COMP_ID,
        group,
        SENDING_TIME,
        TARGET_COMP_ID,
        ACCOUNT,
        average,
        CL_ORD_ID,
        CUM_QTY,
        EXEC_ID,
        EXEC_TRANS_TYPE,
        last_price,
        LAST_SHARES,
        ORDER_ID,
        ORDER_QTY,
        ORD_STATUS_TRADE,
        ORD_TYPE,
        price,
        RULE_80A,
        side,
        symbol,
        TIME_IN_FORCE,
        TRANSACT_TIME,
        CLIENT_ID,
        MIN_QTY,
        EXEC_TYPE_TRADE,
        LEAVES_QTY,
        other,
        count,
        own,
        LAST_LIQUIDITY_IND,
        TRD_MATCH_ID,
        ORDER_CLASSIFICATION,
        last,
        UNUSED,
    ]
}

// An order rejected, 103 saying why.
fn rejected_slots(q: Instrument) -> [Slot; 36]
    ensures { result ≡ rejected_slots q }
{
    let group = sender_sub_id(q);
    let average = avg_px(q);
    let side = side(q);
    let symbol = symbol(q);
    [
        EXECUTION_REPORT,
        MSG_SEQ_NUM,
        SENDER_COMP_ID,
        group,
        SENDING_TIME,
        TARGET_COMP_ID,
        average,
        CL_ORD_ID,
        CUM_QTY_REJECTED,
        EXEC_ID,
        EXEC_TRANS_TYPE,
        ORDER_ID_REJECTED,
        ORDER_QTY,
        ORD_STATUS_REJECTED,
        side,
        symbol,
        ORD_REJ_REASON,
        EXEC_TYPE_REJECTED,
        LEAVES_QTY_REJECTED,
        UNUSED,
        UNUSED,
        UNUSED,
        UNUSED,
        UNUSED,
        UNUSED,
        UNUSED,
        UNUSED,
        UNUSED,
        UNUSED,
        UNUSED,
        UNUSED,
        UNUSED,
        UNUSED,
        UNUSED,
        UNUSED,
        UNUSED,
    ]
}

// A cancel or replace rejected, 102 saying why and 434 what was asked.
fn cancel_reject_slots(q: Instrument) -> [Slot; 36]
    ensures { result ≡ cancel_reject_slots q }
{
    let group = sender_sub_id(q);
    [
        CANCEL_REJECT,
        MSG_SEQ_NUM,
        SENDER_COMP_ID,
        group,
        SENDING_TIME,
        TARGET_COMP_ID,
        CL_ORD_ID,
        ORDER_ID_CANCEL_REJECT,
        ORD_STATUS_CANCEL_REJECT,
        ORIG_CL_ORD_ID,
        CXL_REJ_REASON,
        CXL_REJ_RESPONSE_TO,
        UNUSED,
        UNUSED,
        UNUSED,
        UNUSED,
        UNUSED,
        UNUSED,
        UNUSED,
        UNUSED,
        UNUSED,
        UNUSED,
        UNUSED,
        UNUSED,
        UNUSED,
        UNUSED,
        UNUSED,
        UNUSED,
        UNUSED,
        UNUSED,
        UNUSED,
        UNUSED,
        UNUSED,
        UNUSED,
        UNUSED,
        UNUSED,
    ]
}

// 7.4.5, a session Reject.
fn session_reject_slots(q: Instrument) -> [Slot; 36]
    ensures { result ≡ session_reject_slots q }
{
    let group = sender_sub_id(q);
    [
        SESSION_REJECT,
        MSG_SEQ_NUM,
        SENDER_COMP_ID,
        group,
        SENDING_TIME,
        TARGET_COMP_ID,
        REF_SEQ_NUM,
        REF_TAG_ID,
        REF_MSG_TYPE,
        SESSION_REJECT_REASON,
        UNUSED,
        UNUSED,
        UNUSED,
        UNUSED,
        UNUSED,
        UNUSED,
        UNUSED,
        UNUSED,
        UNUSED,
        UNUSED,
        UNUSED,
        UNUSED,
        UNUSED,
        UNUSED,
        UNUSED,
        UNUSED,
        UNUSED,
        UNUSED,
        UNUSED,
        UNUSED,
        UNUSED,
        UNUSED,
        UNUSED,
        UNUSED,
        UNUSED,
        UNUSED,
    ]
}

// The slots of a kind; of what is refused there are none.
pub fn slots_of(q: Instrument, kind: Kind) -> [Slot; 36]
    ensures { result ≡ slots_of q kind }
{
    match kind {
        Kind::Accepted => accepted_slots(q),
        Kind::Replaced => replaced_slots(q),
        Kind::Canceled => canceled_slots(q),
        Kind::Trade => trade_slots(q),
        Kind::Rejected => rejected_slots(q),
        Kind::CancelReject => cancel_reject_slots(q),
        Kind::SessionReject => session_reject_slots(q),
        Kind::Refused => [UNUSED; 36],
    }
}
