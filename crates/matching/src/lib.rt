// The matching of orders by value: which meet, which is better, what a meeting comes to, and an order after an event. The book itself is
// the table's.
#![tactic(auto)]

ghost use Rattle.std.specs.Prelude.{◌≡◌};
ghost use Rattle.matching.specs.Matching.{open_of, is_open, is_buy, is_immediate, minimum_of, opposite, same_owner, opposed, meets, better, faces, prevention, meeting, ending, place_after, change, prevented_reports, reports, buys, crosses, ahead};
ghost use Rattle.matching.specs.Depth.{on_side, stands, behind, nearer};
ghost use Rattle.matching.specs.Held.{Covered, Sound, May};

// One order: the eleven numbers that matching needs. Side 1 buys and any other sells; time in force 0 is Day, 3 IOC and 4 Fill or Kill; the level is
// 1,000,000,000 and the yield in thousandths, or less the price in tenths; the sum is that of executed quantity times level; the place is the number of
// the Accepted report, or of the last requested Replaced report that did not keep it; MPID 0 is none; MinQty is 110 as it was sent, 0
// for none. All are numbers, since the record of a table that is no market may hold any, and the definitions read them.
#[derive(Clone, Copy)]
pub struct Order {
    pub side: u64,
    pub tif: u64,
    pub level: u64,
    pub qty: u64,
    pub executed: u64,
    pub decremented: u64,
    pub canceled: u64,
    pub sum: u64,
    pub place: u64,
    pub mpid: u64,
    pub minqty: u64,
}

// What self-trade prevention does, by mode, with its quantities. The order in work is the newest, the resting one the oldest.
#[derive(Clone, Copy)]
pub enum Prevention {
    CancelNewest { quantity: u64 },
    CancelOldest { quantity: u64 },
    Decrement { newest: u64, oldest: u64 },
}

// What a step comes to: a trade at the resting level, a prevention, or the end of the work: what is open is killed, expires or rests.
#[derive(Clone, Copy)]
pub enum Outcome {
    Trade { quantity: u64, level: u64 },
    Prevented(Prevention),
    Kills { quantity: u64 },
    Expires { quantity: u64 },
    Rests,
}

// What happens to one order, named by its number: it enters the book, is replaced (the place is the one it may take) or
// withdrawn as requested, is canceled or decremented by prevention, trades with another, is killed (it would not reach its minimum), or
// expires (an immediate order's rest).
#[derive(Clone, Copy)]
pub enum Event {
    Accepted {
        order: u64,
        entered: Order,
    },
    Replaced {
        order: u64,
        level: u64,
        quantity: u64,
        place: u64,
    },
    Withdrawn {
        order: u64,
        quantity: u64,
    },
    Canceled {
        order: u64,
        quantity: u64,
    },
    Decremented {
        order: u64,
        quantity: u64,
    },
    Traded {
        order: u64,
        other: u64,
        quantity: u64,
        level: u64,
    },
    Killed {
        order: u64,
        quantity: u64,
    },
    Expired {
        order: u64,
        quantity: u64,
    },
}

// A level of a side, with its total open quantity and its number of orders.
#[derive(Clone, Copy, PartialEq, Eq)]
pub struct Level {
    pub level: u64,
    pub total: u64,
    pub orders: u64,
}

impl Order {
    // What is open.
    pub fn open_of(self) -> u64
        requires { Covered self }
        ensures { result ≡ open_of self }
    {
        self.qty - (self.executed + self.decremented + self.canceled)
    }

    // Something is open.
    pub fn is_open(self) -> bool
        requires { Covered self }
        ensures { result ≡ is_open self }
    {
        0 < self.open_of()
    }

    pub fn is_buy(self) -> bool
        ensures { result ≡ is_buy self }
    {
        self.side == 1
    }

    // Nothing of it may rest: IOC or Fill or Kill.
    pub fn is_immediate(self) -> bool
        ensures { result ≡ is_immediate self }
    {
        (self.tif == 3) | (self.tif == 4)
    }

    // The minimum that it must trade, 0 for none.
    pub fn minimum_of(self) -> u64
        ensures { result ≡ minimum_of self }
    {
        if self.tif == 4 { self.qty } else { self.minqty }
    }

    // One buys and the other sells.
    pub fn opposite(self, other: Order) -> bool
        ensures { result ≡ opposite self other }
    {
        self.is_buy() != other.is_buy()
    }

    // The levels of two opposite orders meet.
    pub fn meets(self, other: Order) -> bool
        ensures { result ≡ meets self other }
    {
        if self.side == 1 {
            self.level <= other.level
        } else {
            other.level <= self.level
        }
    }

    // This one is better than the other, of the same side: by level, then by place.
    pub fn better(self, other: Order) -> bool
        ensures { result ≡ better self other }
    {
        if self.level == other.level {
            self.place < other.place
        } else {
            ahead(self.side, self.level, other.level)
        }
    }

    // The other is open and on the other side.
    pub fn opposed(self, other: Order) -> bool
        requires { Covered other }
        ensures { result ≡ opposed self other }
    {
        other.is_open() & self.opposite(other)
    }

    // The other is open, on the other side, and met.
    pub fn faces(self, other: Order) -> bool
        requires { Covered other }
        ensures { result ≡ faces self other }
    {
        other.is_open() & self.opposite(other) & self.meets(other)
    }

    // Both carry an MPID and it is the same.
    pub fn same_owner(self, other: Order) -> bool
        ensures { result ≡ same_owner self other }
    {
        (0 < self.mpid) & (self.mpid == other.mpid)
    }

    // What becomes of an order in work that is matched with none.
    pub fn ending(self) -> Outcome
        requires { Covered self }
        ensures { result ≡ ending self }
    {
        let quantity = self.open_of();
        if self.is_immediate() & (0 < quantity) {
            return Outcome::Expires { quantity };
        }
        Outcome::Rests
    }

    // The place after a requested replacement to a level and quantity: the order's own or the one given.
    pub fn place_after(self, level: u64, quantity: u64, given: u64) -> u64
        ensures { result ≡ place_after self level quantity given }
    {
        if (level == self.level) & (quantity <= self.qty) {
            return self.place;
        }
        given
    }

    // The order after an event of it.
    pub fn change(self, e: Event) -> Order
        requires { Sound self × May e self }
        ensures { result ≡ change e self }
    {
        match e {
            Event::Accepted { entered, .. } => entered,
            Event::Replaced {
                level,
                quantity,
                place,
                ..
            } => Order {
                level,
                qty: quantity,
                place: self.place_after(level, quantity, place),
                ..self
            },
            Event::Withdrawn { quantity, .. }
            | Event::Canceled { quantity, .. }
            | Event::Killed { quantity, .. }
            | Event::Expired { quantity, .. } => Order {
                canceled: self.canceled + quantity,
                ..self
            },
            Event::Decremented { quantity, .. } => Order {
                decremented: self.decremented + quantity,
                ..self
            },
            Event::Traded {
                quantity,
                level,
                ..
            } => Order {
                executed: self.executed + quantity,
                sum: self.sum + quantity * level,
                ..self
            },
        }
    }

    // An order of a side, 1 the buys and any other the sells.
    pub fn on_side(self, side: u64) -> bool
        ensures { result ≡ on_side side self }
    {
        self.is_buy() == (side == 1)
    }

    // An open order of a side.
    pub fn stands(self, side: u64) -> bool
        requires { Covered self }
        ensures { result ≡ stands side self }
    {
        self.is_open() & self.on_side(side)
    }

    // Of level c, found so far (0 for none), and this order's, the nearer to the best behind level x.
    pub fn nearer(self, side: u64, x: u64, c: u64) -> u64
        requires { Covered self }
        ensures { result ≡ nearer side x c self }
    {
        if self.stands(side)
            & behind(side, x, self.level)
            & ((c == 0) | ahead(side, self.level, c))
        {
            return self.level;
        }
        c
    }
}

// What the mode does to the newest and the oldest. It is the byte that a table holds, and any but 1 and 2 decrements: no enum names 256 of them.
pub fn prevented(mode: u64, newest: u64, oldest: u64) -> Prevention
    ensures { result ≡ prevention mode newest oldest }
{
    match mode {
        1 => Prevention::CancelNewest { quantity: newest },
        2 => Prevention::CancelOldest { quantity: oldest },
        _ => Prevention::Decrement { newest, oldest },
    }
}

// What becomes of an order in work that is matched with a resting one.
pub fn matched(worker: Order, resting: Order, mode: u64) -> Outcome
    requires { Covered worker × Covered resting }
    ensures { result ≡ meeting worker resting mode }
{
    let w = worker.open_of();
    let r = resting.open_of();
    if worker.same_owner(resting) {
        return Outcome::Prevented(prevented(mode, w, r));
    }
    Outcome::Trade {
        quantity: w.min(r),
        level: resting.level,
    }
}

// How many reports a prevention has.
pub fn prevented_reports(p: Prevention) -> u64
    ensures { result ≡ prevented_reports p }
{
    match p {
        Prevention::CancelNewest { .. } | Prevention::CancelOldest { .. } => 1,
        Prevention::Decrement { .. } => 2,
    }
}

// How many reports an outcome has.
pub fn reports(outcome: Outcome) -> u64
    ensures { result ≡ reports outcome }
{
    match outcome {
        Outcome::Trade { .. } => 2,
        Outcome::Prevented(p) => prevented_reports(p),
        Outcome::Kills { .. } | Outcome::Expires { .. } => 1,
        Outcome::Rests => 0,
    }
}

// The levels of a buy and of a sell meet.
pub fn crosses(buy: u64, sell: u64) -> bool
    ensures { result ≡ crosses buy sell }
{
    buy <= sell
}

// Level x is better than level y on a side, a number: the record or the caller has any, of which 1 buys and each other one sells.
pub fn ahead(side: u64, x: u64, y: u64) -> bool
    ensures { result ≡ ahead (buys side) x y }
{
    if side == 1 { x < y } else { y < x }
}

// Level l comes behind level x, seen from the best of a side; behind level 0 comes any.
pub fn behind(side: u64, x: u64, l: u64) -> bool
    ensures { result ≡ behind side x l }
{
    (x == 0) | ahead(side, x, l)
}
