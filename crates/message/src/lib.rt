// Command bytes and what they mean: document 01's table of 256 meanings.
#![tactic(auto)]

ghost use Rattle.std.specs.Prelude.{◌≡◌};
ghost use Rattle.message.specs.Meaning.{code_of, decode, meaning_of};

pub mod table;

// A primary address. Document 01: "a party's place and its address are separate kinds of number".
#[derive(Clone, Copy, PartialEq, Eq)]
pub struct Address(pub u8);

// A secondary address, which says which of the parties at one primary is meant.
#[derive(Clone, Copy, PartialEq, Eq)]
pub struct SecondaryAddress(pub u8);

// What a command byte means to who hears it.
#[derive(Clone, Copy)]
pub enum Meaning {
    // A primary command without a meaning of its own.
    Other,
    Listen(Address),
    Unlisten,
    Talk(Address),
    Untalk,
    Sdc,
    Get,
    Tct,
    Dcl,
    Spe,
    Spd,
    Second(SecondaryAddress),
    // 7F, which is neither a primary command nor a secondary.
    Neither,
    // Parallel poll configure and unconfigure, primary commands too.
    Ppc,
    Ppu,
}

// The table's entry of a byte.
pub fn code_of(byte: u8) -> u8
    ensures { result ≡ code_of (meaning_of byte) }
{
    table::CODES[byte as usize]
}

// What a byte with this code means, if its low five bits are the number of an address. The one place where the table's
// numbers become cases.
#[tactic(auto, unfolding(crate::specs::Meaning::decode))]
fn decode(code: u8, number: u8) -> Meaning
    ensures { result ≡ decode code number }
{
    match code {
        1 => Meaning::Listen(Address(number)),
        2 => Meaning::Unlisten,
        3 => Meaning::Talk(Address(number)),
        4 => Meaning::Untalk,
        5 => Meaning::Sdc,
        6 => Meaning::Get,
        7 => Meaning::Tct,
        8 => Meaning::Dcl,
        9 => Meaning::Spe,
        10 => Meaning::Spd,
        11 => Meaning::Second(SecondaryAddress(number)),
        12 => Meaning::Neither,
        13 => Meaning::Ppc,
        14 => Meaning::Ppu,
        _ => Meaning::Other,
    }
}

// The meaning of a command byte.
pub fn meaning_of(byte: u8) -> Meaning
    ensures { result ≡ meaning_of byte }
{
    decode(code_of(byte), byte % 32)
}
