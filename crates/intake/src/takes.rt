// Requests that are taken: the record changes, the report is written from the table after that, the next number goes up, and the
// best levels in the heading follow: none while an order is in work.
ghost use Rattle.std.specs.Prelude.{◌≡◌, ◌≤◌, ◌<◌, length, Ok};
ghost use Rattle.request.specs.declared.Asked.TheVariants.{Enters, Replaces, Cancels};
ghost use Rattle.matching.specs.Matching.{open_of};
ghost use Rattle.table.specs.Places.{table_bytes};
ghost use Rattle.table.specs.Heading.{put_work};
ghost use Rattle.table.specs.Orders.{order_at, accepted};
ghost use Rattle.table.specs.Orders.{filled as Orders·filled};
ghost use Rattle.table.specs.Best.{put_best, clear_best};
ghost use Rattle.table.specs.Facts.{Market};
ghost use Rattle.table.specs.Changes.{numbered};
ghost use Rattle.calls.specs.Checks.{text_of, holder, new_stands, cancel_stands, replace_stands};
ghost use Rattle.calls.specs.Submit.{sent_at, no_text, cause_of, marks_of, new_order_of, new_taken, replacement_taken, cancel_taken};
ghost use Rattle.intake.specs.Intake.{order_with, Asking, Left};

use crate::checks::text_of;
use calls::{Reply, ReplyKind};
use fix::frame::Part;
use matching::{Event, Order};
use report::Place;
use request::{Cancellation, NewOrder, Replacement, Terms};
use table::best::{clear_best, put_best};
use table::book::record_for;
use table::heading::{next, put_next, put_work};
use table::record::{Marks, accept, load};
use ticket::Cause;
use ticket::tell::tell;

// Where a text of the message stands, for a report.
pub fn sent_at(p: Part) -> Place
    ensures { result ≡ sent_at p }
{
    Place {
        sent: true,
        start: p.start,
        length: p.len,
    }
}

// A message without a 41 as a cause: its 52.
fn cause_alone(time: Part) -> Cause
    ensures { result ≡ cause_of time no_text }
{
    let when = sent_at(time);
    let orig = Place {
        sent: false,
        start: 0,
        length: 0,
    };
    Cause { time: when, orig }
}

// A message with a 41 as a cause: its 52 and its 41.
fn cause_with(time: Part, original: Part) -> Cause
    ensures { result ≡ cause_of time (sent_at original) }
{
    let when = sent_at(time);
    let orig = sent_at(original);
    Cause { time: when, orig }
}

// The next report number goes up by one.
pub fn raise(t: &mut [u8])
    requires { length t.old ≡ table_bytes }
    ensures { t.new ≡ numbered t.old 1 }
{
    let n = octets::le_at(t, table::places::NEXT, 4);
    put_next(t, n + 1);
}

// The next report number goes up by one, and record w is in work with the 52 of its message and no best levels.
fn raise_and_work(t: &mut [u8], w: usize, message: &[u8], time: Part)
    requires { (length t.old ≡ table_bytes) × (w < 256) × (length (text_of message.now time) ≤ 21) }
    ensures { t.new ≡ clear_best (put_work (numbered t.old 1) w (text_of message.now time)) }
{
    raise(t);
    put_work(t, w as u8, text_of(message, time));
    clear_best(t);
}

// The next report number goes up by one, and the best levels are those of the book.
fn raise_and_best(t: &mut [u8])
    requires { length t.old ≡ table_bytes }
    ensures { t.new ≡ put_best (numbered t.old 1) }
{
    raise(t);
    put_best(t);
}

// A new order of these terms and this place.
fn new_order(terms: Terms, place: u64) -> Order
    ensures { result ≡ order_with terms place }
{
    Order {
        side: terms.side,
        tif: terms.tif,
        level: terms.level,
        qty: terms.quantity,
        executed: 0,
        decremented: 0,
        canceled: 0,
        sum: 0,
        place,
        mpid: terms.mpid,
        minqty: terms.minqty,
    }
}

// A new order is written as record k, with this OrderID.
fn write_new(t: &mut [u8], message: &[u8], k: usize, orderid: u64, o: NewOrder, order: Order)
    requires { Asking t.old message.now (Enters o) × (k < 256) × (order ≡ new_order_of t.old message.now o) }
    ensures { t.new ≡ accepted t.old k orderid (text_of message.now o.id) (text_of message.now o.account)
        (marks_of o) order }
{
    let marks = Marks {
        capacity: o.terms.capacity,
        class: o.terms.class,
        cash: o.terms.cash,
        margin: o.terms.margin,
    };
    accept(
        t,
        k,
        orderid,
        text_of(message, o.id),
        text_of(message, o.account),
        marks,
        order,
    );
}

// A new order takes a record, with the number of its report as its OrderID, and is in work.
pub fn enter(table: &mut [u8], n: usize, message: &[u8], area: &mut [u8], o: NewOrder) -> Reply
    requires { Asking table.old message.now (Enters o) × (n ≡ Orders·filled table.old) × (new_stands table.old message.now o ≡ Ok tt) × (1024 ≤ length area.old) }
    ensures { Left (new_taken table.old message.now o) area.old (Ok result) table.new area.new }
{
    let number = next(table);
    let k = record_for(table, n);
    let order = new_order(o.terms, number);
    write_new(table, message, k, number, o, order);
    let e = Event::Accepted {
        order: k as u64,
        entered: order,
    };
    let len = tell(area, table, message, number, cause_alone(o.time), e);
    raise_and_work(table, k, message, o.time);
    Reply {
        kind: ReplyKind::Taken,
        len,
    }
}

// Record k takes new terms and a new ClOrdID, keeps its place or takes the number of its report for it, and is in work.
pub fn renew(table: &mut [u8], message: &[u8], area: &mut [u8], o: Replacement, k: usize) -> Reply
    requires { Asking table.old message.now (Replaces o) × (replace_stands table.old message.now o ≡ Ok tt)
        × (k ≡ holder table.old (text_of message.now o.original)) × (1024 ≤ length area.old) }
    ensures { Left (replacement_taken table.old message.now o k) area.old (Ok result) table.new area.new }
{
    let n = next(table);
    let e = Event::Replaced {
        order: k as u64,
        level: o.level,
        quantity: o.quantity,
        place: n,
    };
    table::event::replace(table, k, text_of(message, o.id), e);
    let len = tell(area, table, message, n, cause_with(o.time, o.original), e);
    raise_and_work(table, k, message, o.time);
    Reply {
        kind: ReplyKind::Taken,
        len,
    }
}

// What is open of record k.
fn open_at(t: &[u8], k: usize) -> u64
    requires { Market t.now × (1 ≤ k) × (k ≤ Orders·filled t.now) }
    ensures { result ≡ open_of (order_at t.now k) }
{
    load(t, k).open_of()
}

// All that is open of record k is canceled, and it takes a new ClOrdID.
pub fn withdraw(
    table: &mut [u8],
    message: &[u8],
    area: &mut [u8],
    o: Cancellation,
    k: usize,
) -> Reply
    requires { Asking table.old message.now (Cancels o) × (cancel_stands table.old message.now o ≡ Ok tt)
        × (k ≡ holder table.old (text_of message.now o.original)) × (1024 ≤ length area.old) }
    ensures { Left (cancel_taken table.old message.now o k) area.old (Ok result) table.new area.new }
{
    let n = next(table);
    let e = Event::Withdrawn {
        order: k as u64,
        quantity: open_at(table, k),
    };
    table::event::withdraw(table, k, text_of(message, o.id), e);
    let len = tell(area, table, message, n, cause_with(o.time, o.original), e);
    raise_and_best(table);
    Reply {
        kind: ReplyKind::Taken,
        len,
    }
}
