// The bus call by call, for a program that keeps it as rows of bytes between the calls. Every content of the rows is
// some bus; a refused call leaves it byte for byte.
ghost use Rattle.registers.specs.declared.Access.TheVariants as access;
ghost use Rattle.parties.specs.Places.{place};
ghost use Rattle.effect.specs.declared.Call.TheVariants as call_of;
ghost use Rattle.effect.specs.declared.Act.TheVariants as act_of;
ghost use Rattle.bus.specs.Machine.{call, accessed};
ghost use Rattle.image.specs.Image.{bus_of};
ghost use Rattle.meskvorn.specs.Host.{answer_by_number, Replied};

use crate::calls::answer_by_number;
use crate::packing::packed;
use bus::Answer;
use image::reading::bus_of;
use image::writing::rows_of;
use party::Place;

// The answer's number. The rows are those of its bus, or left as they were where it is a refusal.
fn reply(bus: &mut [[u8; 24]; 16], a: Answer) -> u64
    ensures { Replied a bus.old bus.new result }
{
    if a.verdict.is_ok() {
        *bus = rows_of(a.bus);
    }
    packed(a)
}

// Any operation other than build.
pub fn meskvorn_call(bus: &mut [[u8; 24]; 16], op: u8, party: u8, value: u8, extra: u8) -> u64
    ensures { Replied (answer_by_number (bus_of bus.old) op party value extra)
        bus.old bus.new result }
{
    reply(bus, answer_by_number(bus_of(*bus), op, party, value, extra))
}

// What a party's register at an offset holds.
pub fn meskvorn_read_register(bus: &mut [[u8; 24]; 16], party: u8, offset: u8) -> u64
    ensures { Replied (accessed (bus_of bus.old) (place party) (access.Read offset))
        bus.old bus.new result }
{
    reply(bus, bus_of(*bus).read_register(Place(party), offset))
}

// A value for a party's register at an offset.
pub fn meskvorn_write_register(bus: &mut [[u8; 24]; 16], party: u8, offset: u8, value: u8) -> u64
    ensures { Replied (accessed (bus_of bus.old) (place party) (access.Write offset value))
        bus.old bus.new result }
{
    reply(
        bus,
        bus_of(*bus).write_register(Place(party), offset, value),
    )
}

// A party's own status, 0 or 1.
pub fn meskvorn_own_status(bus: &mut [[u8; 24]; 16], party: u8, value: u8) -> u64
    ensures { Replied (call (bus_of bus.old) (call_of.Of (place party) (act_of.OwnStatus value)))
        bus.old bus.new result }
{
    reply(bus, bus_of(*bus).own_status(Place(party), value))
}

// A parallel poll by a party.
pub fn meskvorn_parallel_poll(bus: &mut [[u8; 24]; 16], party: u8) -> u64
    ensures { Replied (call (bus_of bus.old) (call_of.Of (place party) act_of.ParallelPoll))
        bus.old bus.new result }
{
    reply(bus, bus_of(*bus).parallel_poll(Place(party)))
}
