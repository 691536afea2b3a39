// How a feed is set up: whether its settings mean something, the text of 109, which kinds it copies. The settings are the numbers that the C
// interface takes, since the definitions of specs/Settings speak of those: 0 or any other number that is no setting comes as far as here.
ghost use Rattle.std.specs.Prelude.{◌≡◌, ◌&&◌, ◌≤◌, leb, length};
ghost use Rattle.octets.specs.Written.{Room, Wrote};
ghost use Rattle.feed.specs.Rows.{longest as longest_of};
ghost use Rattle.feed.specs.Settings.{client_of, is_identifier, are_identifiers, is_setting, copied_by};
ghost use Rattle.feed.specs.Copies.{is_none, copy_kind};

use crate::rows::longest;
use decimal::Instrument;
use decimal::write::put_byte;
use octets::part::copy_into;
use report::Kind;
use report::values::all_from;

// Whether a text is an identifier of at most so many characters.
#[tactic(auto, using(crate::proofs::Clients::none_not, crate::proofs::Clients::long_not, crate::proofs::Clients::all_so))]
fn is_identifier(v: &[u8], most: usize) -> bool
    ensures { result ≡ (is_identifier v.now && leb (length v.now) most) }
{
    if v.len() == 0 {
        return false;
    }
    if v.len() > most {
        return false;
    }
    all_from(v, 33)
}

// Whether the identifiers that 109 shows are some, and 109 is not too long.
#[tactic(auto, using(crate::proofs::Clients::client_port, crate::proofs::Clients::client_group, crate::proofs::Clients::client_short, crate::proofs::Clients::client_not, crate::proofs::Clients::client_other, crate::proofs::Clients::both_few))]
fn is_client(q: Instrument, shows: u64, port: &[u8], group: &[u8]) -> bool
    ensures { result ≡ (are_identifiers shows port.now group.now && leb (length (client_of shows port.now group.now)) (longest_of q)) }
{
    let most = longest(q);
    if shows == 1 {
        return is_identifier(port, most);
    }
    if shows == 2 {
        return is_identifier(group, most);
    }
    if shows == 3 {
        let a = is_identifier(port, most);
        let b = is_identifier(group, most);
        if a & b {
            return port.len() + group.len() < most;
        }
        return false;
    }
    false
}

// Whether a feed can be set up so.
#[tactic(auto, using(crate::proofs::Clients::setting_known, crate::proofs::Clients::setting_unknown))]
pub fn is_setting(q: Instrument, subscription: u64, shows: u64, port: &[u8], group: &[u8]) -> bool
    ensures { result ≡ is_setting q subscription shows port.now group.now }
{
    if (subscription == 1) | (subscription == 2) {
        return is_client(q, shows, port, group);
    }
    false
}

// Writes the text of 109, and gives its length.
#[tactic(auto, using(crate::proofs::Clients::room_port, crate::proofs::Clients::room_group, crate::proofs::Clients::room_first_one, crate::proofs::Clients::room_hyphen, crate::proofs::Clients::room_second_one))]
pub fn client_text(out: &mut [u8], shows: u64, port: &[u8], group: &[u8]) -> usize
    requires { Room out.old 0 (client_of shows port.now group.now) }
    ensures { Wrote out.old 0 (client_of shows port.now group.now) result out.new }
{
    if shows == 1 {
        return copy_into(out, 0, port);
    }
    if shows == 2 {
        return copy_into(out, 0, group);
    }
    let a = copy_into(out, 0, port);
    let b = put_byte(out, a, b'-');
    copy_into(out, b, group)
}

// Whether bytes of this kind are no report.
pub fn is_none(kind: Kind) -> bool
    ensures { result ≡ is_none kind }
{
    matches!(kind, Kind::Refused)
}

// Whether reports of this kind are copied.
pub fn is_copied(subscription: u64, kind: Kind) -> bool
    ensures { result ≡ copied_by subscription kind }
{
    match kind {
        Kind::Accepted | Kind::Replaced | Kind::Canceled => subscription == 2,
        Kind::Trade => true,
        Kind::Rejected | Kind::CancelReject | Kind::SessionReject | Kind::Refused => false,
    }
}

// The kind of what can be a copy.
pub fn copy_kind(kind: Kind) -> Kind
    ensures { result ≡ copy_kind kind }
{
    if is_copied(2, kind) {
        return kind;
    }
    Kind::Refused
}
