// An answer and a name as a number each, which every host language takes.
ghost use Rattle.std.specs.Prelude.{◌≡◌};
ghost use Rattle.meskvorn.specs.Packing.{packed, secondary_byte, packed_name};

use bus::Answer;
use effect::calls::verdict_number;
use message::SecondaryAddress;
use names::Name;

// All of an answer but the bus.
pub fn packed(a: Answer) -> u64
    ensures { result ≡ packed a }
{
    u64::from_le_bytes([
        verdict_number(a.verdict),
        a.event.number(),
        a.byte,
        a.end as u8,
        a.dropped,
        a.broken,
        0,
        0,
    ])
}

fn secondary_byte(s: Option<SecondaryAddress>) -> u8
    ensures { result ≡ secondary_byte s }
{
    s.map_or(addresses::NO_SECONDARY, |own| own.0)
}

// A party's name.
pub fn packed_name(n: Name) -> u16
    ensures { result ≡ packed_name n }
{
    u16::from_le_bytes([n.address.0, secondary_byte(n.secondary)])
}
