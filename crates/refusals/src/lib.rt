// The refusals of the calls, each with its number of the paper. A call that refuses answers one of these, and has changed nothing of what it is
// lent.
#![tactic(auto)]

ghost use Rattle.std.specs.Prelude.{◌≡◌};
ghost use Rattle.refusals.specs.Refusals.{number_of, answer_number};

// Why a call refuses. Of a bad block the number of the block comes with it, from 0.
#[derive(Clone, Copy, PartialEq, Eq)]
pub enum Refusal {
    NoRoom,
    NoMarket,
    InWork,
    NumbersSpent,
    Garbled,
    BadSetting,
    BadSide,
    NoReport,
    BadLength,
    BadBlock(usize),
    BadFeed,
}

impl From<Refusal> for u64 {
    ghost from_gives = { λ refusal number. number ≡ number_of refusal };

    fn from(refusal: Refusal) -> u64 {
        match refusal {
            Refusal::NoRoom => 1,
            Refusal::NoMarket => 2,
            Refusal::InWork => 3,
            Refusal::NumbersSpent => 4,
            Refusal::Garbled => 5,
            Refusal::BadSetting => 9,
            Refusal::BadSide => 10,
            Refusal::NoReport => 11,
            Refusal::BadLength => 12,
            Refusal::BadBlock(_) => 13,
            Refusal::BadFeed => 17,
        }
    }
}

// The paper's number of what a call answers: 0, or that of its refusal.
pub fn answer_number<T>(answer: &Result<T, Refusal>) -> u64
    ensures { result ≡ answer_number answer.now }
{
    match answer {
        Ok(_) => 0,
        Err(refusal) => u64::from(*refusal),
    }
}
