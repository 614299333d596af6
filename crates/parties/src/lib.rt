// The parties of a bus together: the lines that they drive.
#![tactic(auto)]

ghost use Rattle.std.specs.Prelude.{◌≡◌, ◌≤◌};
ghost use Rattle.parties.specs.Lines.{weight, lines_byte};

use party::Place;

pub mod every;
pub mod polling;
pub mod sweeping;

// One thing for each of the six lines of the bus.
#[derive(Clone, Copy)]
pub struct EachLine<T> {
    pub atn: T,
    pub dav: T,
    pub nrfd: T,
    pub ndac: T,
    pub eoi: T,
    pub srq: T,
}

// True where driven.
pub type Lines = EachLine<bool>;

// The parties that drive each line, as sixteen bits, one a party, party 0 lowest.
pub type Masks = EachLine<u16>;

// How many parties drive each line.
pub type Counts = EachLine<u32>;

// What one pass over the parties finds: who drives each line that a party's state decides, and who talks, as masks.
#[derive(Clone, Copy)]
pub struct Sweep {
    pub atn: u16,
    pub dav: u16,
    pub nrfd: u16,
    pub ndac: u16,
    pub srq: u16,
    pub talk: u16,
}

// What a call is told of the parties: the lines, and the first party other than its own that talks.
#[derive(Clone, Copy)]
pub struct Scan {
    pub lines: Lines,
    pub talker: Option<Place>,
}

// The weight of a line in the lines answer.
fn weight(on: bool, w: u8) -> u8
    ensures { (result ≡ weight w on) × (result ≤ w) }
{
    if on { w } else { 0 }
}

impl Lines {
    // The lines answer.
    pub fn byte(self) -> u8
        ensures { result ≡ lines_byte self }
    {
        weight(self.atn, 128)
            + weight(self.dav, 64)
            + weight(self.ndac, 32)
            + weight(self.nrfd, 16)
            + weight(self.eoi, 8)
            + weight(self.srq, 4)
    }
}
