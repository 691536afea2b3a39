// What a message asks of the market: garbled, a session reject, or a request.
#![tactic(auto)]

ghost use Rattle.std.specs.Prelude.{◌≡◌};
ghost use Rattle.request.specs.Session.{number_of};

pub mod asks;
pub mod body;
pub mod values;

use fix::frame::Part;

// The types of message that the market takes, and any other.
#[derive(Clone, Copy, PartialEq, Eq)]
pub enum Kind {
    NewOrder,
    Replacement,
    Cancel,
    Unknown,
}

// Why a message is rejected: SessionRejectReason (373).
#[derive(Clone, Copy, PartialEq, Eq)]
pub enum Reason {
    RequiredTagMissing,
    TagNotDefined,
    UndefinedTag,
    TagWithoutValue,
    ValueIncorrect,
    IncorrectDataFormat,
    CompIdProblem,
    InvalidMsgType,
}

impl From<Reason> for u64 {
    ghost from_gives = { λ reason number. number ≡ number_of reason };

    fn from(reason: Reason) -> u64 {
        match reason {
            Reason::RequiredTagMissing => 1,
            Reason::TagNotDefined => 2,
            Reason::UndefinedTag => 3,
            Reason::TagWithoutValue => 4,
            Reason::ValueIncorrect => 5,
            Reason::IncorrectDataFormat => 6,
            Reason::CompIdProblem => 9,
            Reason::InvalidMsgType => 11,
        }
    }
}

// What is wrong with a message: the reason (373), and the tag (371).
#[derive(Clone, Copy)]
pub struct Fault {
    pub reason: Reason,
    pub tag: u64,
}

// A session Reject, with its numbers as a report has them: 373, 371, and of the message 34 as a number (for 45), where its 35 (for 372) and its 52 stand.
#[derive(Clone, Copy)]
pub struct Refusal {
    pub reason: u64,
    pub tag: u64,
    pub number: u64,
    pub kind: Part,
    pub time: Part,
}

// The numbers of a new order, as the record of an order keeps them, which may hold any number there: 38, 44 as a level, 54 (1 buys, any other sells), 59 (0 Day, 3 IOC, 4 Fill or Kill), 47 (a
// character), 8060, and 109, 110, 544 and 8214, each 0 where it has none.
#[derive(Clone, Copy)]
pub struct Terms {
    pub quantity: u64,
    pub level: u64,
    pub side: u64,
    pub tif: u64,
    pub capacity: u64,
    pub class: u64,
    pub mpid: u64,
    pub minqty: u64,
    pub cash: u64,
    pub margin: u64,
}

// A new order: where 52, 11, 1 (of length 0 where it has none) and 55 stand, and its numbers.
#[derive(Clone, Copy)]
pub struct NewOrder {
    pub time: Part,
    pub id: Part,
    pub account: Part,
    pub code: Part,
    pub terms: Terms,
}

// A replacement: where 52, 11, 41 and 55 stand; 38, 44 as a level, and 54.
#[derive(Clone, Copy)]
pub struct Replacement {
    pub time: Part,
    pub id: Part,
    pub original: Part,
    pub code: Part,
    pub quantity: u64,
    pub level: u64,
    pub side: u64,
}

// A cancel: where 52, 11, 41 and 55 stand, and 54.
#[derive(Clone, Copy)]
pub struct Cancellation {
    pub time: Part,
    pub id: Part,
    pub original: Part,
    pub code: Part,
    pub side: u64,
}

// What a message asks: five answers, each with data of its own, so neither an Option nor a Result.
#[derive(Clone, Copy)]
pub enum Asked {
    Garbled,
    Refused(Refusal),
    Enters(NewOrder),
    Replaces(Replacement),
    Cancels(Cancellation),
}
