// Building a bus, and asking what was built, for a program that keeps it as rows of bytes.
ghost use Rattle.std.specs.Prelude.{◌≡◌};
ghost use Rattle.parties.specs.Places.{place};
ghost use Rattle.addresses.specs.Addresses.{names_of};
ghost use Rattle.bus.specs.Record.{build, build_extended};
ghost use Rattle.image.specs.Image.{bus_of};
ghost use Rattle.meskvorn.specs.Host.{Built, name_number};

use crate::packing::{packed, packed_name};
use bus::{Answer, Bus};
use image::reading::bus_of;
use image::writing::rows_of;
use parties::every::at;
use party::Place;
use refusals::is_inside;

// The answer's number, and to the rows its bus.
fn hand_over(bus: &mut [[u8; 24]; 16], a: Answer) -> u64
    ensures { Built a bus.new result }
{
    *bus = rows_of(a.bus);
    packed(a)
}

// A build of parties without secondaries. What the rows held before does not matter.
pub fn meskvorn_build(bus: &mut [[u8; 24]; 16], addresses: &[u8], system: u8) -> u64
    ensures { Built (build addresses.now (place system)) bus.new result }
{
    hand_over(bus, Bus::build(addresses, Place(system)))
}

// The same with the parties' secondaries, 255 where a party has none. The list is empty, or as long as the addresses.
pub fn meskvorn_build_extended(
    bus: &mut [[u8; 24]; 16],
    addresses: &[u8],
    secondaries: &[u8],
    system: u8,
) -> u64
    ensures { Built (build_extended (names_of addresses.now secondaries.now) (place system))
        bus.new result }
{
    hand_over(
        bus,
        Bus::build_extended(addresses, secondaries, Place(system)),
    )
}

// The name of the party at a place, as a number for C; the largest of 16 bits where there is no party.
fn name_number(b: Bus, p: Place) -> u16
    ensures { result ≡ name_number b p.0 }
{
    if is_inside(p, b.count) {
        packed_name(at(b.parties, p).role.name)
    } else {
        u16::MAX
    }
}

// What a build named a party on the bus that the rows hold.
pub fn meskvorn_name(bus: &[[u8; 24]; 16], party: u8) -> u16
    ensures { result ≡ name_number (bus_of bus.now) party }
{
    name_number(bus_of(*bus), Place(party))
}
