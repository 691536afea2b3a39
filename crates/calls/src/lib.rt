// What the calls on a table answer where they are not refused, and why a request is rejected. specs/ gives for each case the paper's number
// and values, and what the call leaves of the table and of the report area: the crates above it do the work.
#![tactic(auto)]

ghost use Rattle.std.specs.Prelude.{◌≡◌};
ghost use Rattle.calls.specs.Checks.{order_number, change_number};
ghost use Rattle.calls.specs.Submit.{reply_number, submit_length};

use refusals::Refusal;

// Why a new order is rejected: the market has no record for it, it names another code, its ClOrdID is in the table, its MPID is not listed.
#[derive(Clone, Copy, PartialEq, Eq)]
pub enum OrderReason {
    NoRecord,
    OtherCode,
    IdInUse,
    Stranger,
}

impl From<OrderReason> for u64 {
    ghost from_gives = { λ reason number. number ≡ order_number reason };

    // The value of 103.
    fn from(reason: OrderReason) -> u64 {
        match reason {
            OrderReason::NoRecord => 0,
            OrderReason::OtherCode => 1,
            OrderReason::IdInUse => 6,
            OrderReason::Stranger => 99,
        }
    }
}

// Why a cancel or a replacement is rejected: nothing is open of the order, there is no such order, or it may not change so.
#[derive(Clone, Copy, PartialEq, Eq)]
pub enum ChangeReason {
    NothingOpen,
    NoSuchOrder,
    Unfit,
}

impl From<ChangeReason> for u64 {
    ghost from_gives = { λ reason number. number ≡ change_number reason };

    // The value of 102.
    fn from(reason: ChangeReason) -> u64 {
        match reason {
            ChangeReason::NothingOpen => 0,
            ChangeReason::NoSuchOrder => 1,
            ChangeReason::Unfit => 2,
        }
    }
}

// What the report says that Submit writes: a session Reject, an order rejected, a cancel or replacement rejected, a request taken.
#[derive(Clone, Copy, PartialEq, Eq)]
pub enum ReplyKind {
    SessionReject,
    OrderReject,
    ChangeReject,
    Taken,
}

impl From<ReplyKind> for u64 {
    ghost from_gives = { λ kind number. number ≡ reply_number kind };

    // The number that Submit answers with such a report.
    fn from(kind: ReplyKind) -> u64 {
        match kind {
            ReplyKind::SessionReject => 6,
            ReplyKind::OrderReject => 7,
            ReplyKind::ChangeReject => 8,
            ReplyKind::Taken => 0,
        }
    }
}

// What Submit answers to a message that it does not refuse: what its report says, and how long it is.
#[derive(Clone, Copy)]
pub struct Reply {
    pub kind: ReplyKind,
    pub len: usize,
}

// The length of the report that Submit wrote, 0 where it is refused.
pub fn submit_length(answer: Result<Reply, Refusal>) -> usize
    ensures { result ≡ submit_length answer }
{
    answer.map_or(0, |reply| reply.len)
}

// What Run answers where it is not refused: the bytes and reports written and the steps taken.
#[derive(Clone, Copy)]
pub struct Progress {
    pub bytes: usize,
    pub reports: u64,
    pub steps: u64,
}
