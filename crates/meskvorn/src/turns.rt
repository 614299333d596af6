// Runs of turns, for a program that keeps the bus as rows of bytes.
ghost use Rattle.image.specs.Image.{bus_of};
ghost use Rattle.meskvorn.specs.Host.{turns_given, Gave};

use effect::calls::verdict_number;
use image::reading::bus_of;
use image::writing::rows_of;
use runner::{Given, give_turns};

// What the turns gave, to the counts and to the rows, and the refusal's number. A refused run leaves the rows.
fn hand_over(bus: &mut [[u8; 24]; 16], counts: &mut [u16; 15], given: Given) -> u8
    ensures { Gave given bus.old bus.new counts.new result }
{
    // Read first: stored straight from its field, the borrow checker stops a wrong program before its proof does.
    let had = given.counts;
    *counts = had;
    if given.verdict.is_ok() {
        *bus = rows_of(given.bus);
    }
    verdict_number(given.verdict)
}

// So many turns on the bus that the rows hold, each to the party that has waited longest, ties by address. Gives the
// number of the refusal, and to counts how many turns each place had. A refused run leaves the rows byte for byte.
pub fn meskvorn_turns(bus: &mut [[u8; 24]; 16], turns: u16, counts: &mut [u16; 15]) -> u8
    ensures { Gave (turns_given (bus_of bus.old) turns)
        bus.old bus.new counts.new result }
{
    hand_over(bus, counts, give_turns(bus_of(*bus), turns))
}
