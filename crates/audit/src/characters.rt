// The characters that a text of a table may have.
ghost use Rattle.std.specs.Prelude.{◌≡◌, ◌+◌, ◌-◌, ◌<◌, ◌≤◌, ◌&&◌, length, nat_le, slice_index};
ghost use Rattle.audit.specs.Rows.{bounds_of, bound, AreRows, between, is_filled};
ghost use Rattle.table.specs.Market.{is_text};

// The characters from one to another, as two rows for the bytes of a text: the lowest character, and how far above it the highest is, each 32
// times, and then zeros, as stand behind a text. From place 32 - n on the rows are those of a text of n bytes.
#[derive(Drop)]
pub struct Characters {
    pub low: [u8; 64],
    pub span: [u8; 64],
    pub ghost are_rows: { AreRows low span },
}

// A row of bounds: x 32 times, and 32 zeros.
fn bounds_of(x: u8) -> [u8; 64]
    ensures { result ≡ bounds_of x }
{
    let bounds = [x; 32];
    let mut row = [0u8; 64];
    octets::copy_into(&mut row, 0, &bounds);
    row
}

impl Characters {
    // The characters from the first to the last of them.
    pub fn between(first: u8, last: u8) -> Self
        requires { first ≤ last }
        ensures { (result.low ≡ bounds_of first) × (result.span ≡ bounds_of (last - first)) }
    {
        Characters {
            low: bounds_of(first),
            span: bounds_of(last - first),
        }
    }

    // Whether x is within the bounds at place k of the rows. What is below the lowest wraps and is above any span, so that one comparison tells.
    fn has(&self, k: usize, x: u8) -> bool
        requires { k < 64 }
        ensures { result ≡ (nat_le (slice_index self.now.low k) x && nat_le x (slice_index self.now.low k + slice_index self.now.span k)) }
    {
        x.wrapping_sub(self.low[k]) <= self.span[k]
    }

    // Whether of the room bytes from place p on n are such characters, and zeros stand behind them. There is no way out of the loop but its
    // end, so that many bytes are taken a turn.
    fn is_filled(&self, t: &[u8], p: usize, n: usize, room: usize) -> bool
        requires { (p + room ≤ length t.now) × (n ≤ room) × (room ≤ 32) }
        ensures { result ≡ is_filled self.now.low self.now.span room t.now p n }
    {
        let e = 32 - n;
        let mut good = true;
        for i in 0..room {
            good = good & self.has(e + i, t[p + i]);
        }
        good
    }

    // Whether a text of least to room such characters stands at place p, and zeros behind it.
    pub fn is_text(&self, t: &[u8], p: usize, least: usize, room: usize) -> bool
        requires { (p + 1 + room ≤ length t.now) × (room ≤ 32) }
        ensures { result ≡ is_text (between self.now.low self.now.span) least room t.now p }
    {
        let n = usize::from(t[p]);
        if n < least {
            return false;
        }
        if room < n {
            return false;
        }
        self.is_filled(t, p + 1, n, room)
    }
}
