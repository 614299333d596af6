// What stands on the bus.
ghost use Rattle.std.specs.Prelude.{◌≡◌, ◌<◌};
ghost use Rattle.parties.specs.Places.{within};
ghost use Rattle.parties.specs.Lines.{mask};
ghost use Rattle.effect.specs.Stands.{has_end, sends_command, sends_end, sender_slot, is_left};

use crate::Standing;
use offer::Kind;
use parties::every::slot;
use parties::sweeping::{bit_of, only_if};
use party::Place;

pub fn has_end(st: Option<Standing>) -> bool
    ensures { result ≡ has_end st }
{
    st.is_some_and(|b| b.end)
}

// Does a command of party p stand?
pub fn sends_command(p: Place, st: Option<Standing>) -> bool
    ensures { result ≡ sends_command p.0 st }
{
    st.is_some_and(|b| matches!(b.kind, Kind::Command) && p == b.sender)
}

// Who drives EOI, of so many parties, as a mask: the sender of a byte with END.
pub fn end_mask(count: u8, st: Option<Standing>) -> u16
    ensures { result ≡ mask (within count) (λ i. sends_end i st) }
{
    match st {
        None => 0,
        Some(b) => only_if(b.end, bit_of(b.sender, count)),
    }
}

// The place of the sender, and the first where nothing stands.
pub fn sender_slot(st: Option<Standing>) -> usize
    ensures { (result ≡ sender_slot st) × (result < 15) }
{
    match st {
        None => 0,
        Some(b) => slot(b.sender),
    }
}

// Is what stands broken off by settling, its sender a source or not? Who is at no place is none.
pub fn is_left(source: bool, st: Option<Standing>) -> bool
    ensures { result ≡ is_left source st }
{
    st.is_some_and(|b| b.sender.0 >= 15 || !source)
}
