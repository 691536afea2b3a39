// Text against number: digits, yields and prices, averages, and times.
#![tactic(auto)]

pub mod canonical;
pub mod read;
pub mod write;

ghost use Rattle.std.specs.Prelude.{◌≡◌, ◌^◌, ◌≤◌};
ghost use Rattle.decimal.specs.Instruments.{decimals, highest};

// What a market trades: bonds, by yield, or equities, by price.
#[derive(Clone, Copy, PartialEq, Eq)]
pub enum Instrument {
    Bonds,
    Equities,
}

impl Instrument {
    // How many decimals a yield or a price has.
    pub fn decimals(self) -> usize
        ensures { (result ≡ decimals self) × (result ≤ 3) }
    {
        match self {
            Instrument::Bonds => 3,
            Instrument::Equities => 1,
        }
    }

    // How many units of the last of them make one.
    pub fn unit(self) -> u64
        ensures { (result ≡ 10 ^ decimals self) × (result ≤ 1000) }
    {
        match self {
            Instrument::Bonds => 1000,
            Instrument::Equities => 10,
        }
    }

    // The highest level.
    pub fn highest(self) -> u64
        ensures { result ≡ highest self }
    {
        match self {
            Instrument::Bonds => 1_999_999_999,
            Instrument::Equities => 1_000_000_000,
        }
    }
}

// The level of zero: that of a yield is this and its thousandths, or this less them; that of a price is this less its tenths.
pub const EVEN: u64 = 1_000_000_000;
