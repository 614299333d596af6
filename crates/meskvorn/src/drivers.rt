// Who drives each line, for a program that keeps the bus as rows of bytes.
ghost use Rattle.std.specs.Prelude.{◌≡◌};
ghost use Rattle.bus.specs.Drivers.{drivers};
ghost use Rattle.image.specs.Image.{bus_of};
ghost use Rattle.meskvorn.specs.Host.{line_list, Counted};

use crate::packing::packed;
use image::reading::bus_of;
use image::writing::rows_of;
use parties::EachLine;

fn line_list<T: Copy>(l: EachLine<T>) -> [T; 6]
    ensures { result ≡ line_list l }
{
    [l.atn, l.dav, l.nrfd, l.ndac, l.eoi, l.srq]
}

// Who drives each line of the bus that the rows hold, to masks, and how many, to counts: ATN, DAV, NRFD, NDAC, EOI,
// SRQ. Gives the answer, which is never a refusal.
pub fn meskvorn_drivers(
    bus: &mut [[u8; 24]; 16],
    masks: &mut [u16; 6],
    counts: &mut [u32; 6],
) -> u64
    ensures { Counted (drivers (bus_of bus.old))
        bus.new masks.new counts.new result }
{
    let d = bus_of(*bus).drivers();
    *bus = rows_of(d.answer.bus);
    *masks = line_list(d.masks);
    *counts = line_list(d.counts);
    packed(d.answer)
}
