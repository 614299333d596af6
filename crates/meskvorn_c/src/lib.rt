// What a C or Rust program links: the functions of meskvorn under their names.
#![tactic(auto)]

ghost use Rattle.addresses.specs.Addresses.{names_of};
ghost use Rattle.bus.specs.Drivers.{drivers};
ghost use Rattle.bus.specs.Machine.{call, accessed};
ghost use Rattle.bus.specs.Record.{build, build_extended};
ghost use Rattle.effect.specs.declared.Act.TheVariants as act_of;
ghost use Rattle.effect.specs.declared.Call.TheVariants as call_of;
ghost use Rattle.image.specs.Image.{bus_of};
ghost use Rattle.meskvorn.specs.Host.{Built, name_number};
ghost use Rattle.meskvorn.specs.Host.{answer_by_number, Replied};
ghost use Rattle.meskvorn.specs.Host.{count_of, RanTo};
ghost use Rattle.meskvorn.specs.Host.{Counted};
ghost use Rattle.meskvorn.specs.Host.{turns_given, Gave};
ghost use Rattle.parties.specs.Places.{place};
ghost use Rattle.registers.specs.declared.Access.TheVariants as access;
ghost use Rattle.std.specs.Prelude.{◌≡◌};

// Runs a script and writes its text at the start of out, if that has 34 bytes for each line. Gives the number of bytes
// written.
#[unsafe(no_mangle)]
pub extern "C" fn meskvorn_run(script: &[u8], out: &mut [u8]) -> usize
    ensures { RanTo script.now out.old out.new result }
{
    meskvorn::meskvorn_run(script, out)
}

// A build of parties without secondaries. What the rows held before does not matter.
#[unsafe(no_mangle)]
pub extern "C" fn meskvorn_build(bus: &mut [[u8; 24]; 16], addresses: &[u8], system: u8) -> u64
    ensures { Built (build addresses.now (place system)) bus.new result }
{
    meskvorn::builds::meskvorn_build(bus, addresses, system)
}

// The same with the parties' secondaries, 255 where a party has none. The list is empty, or as long as the addresses.
#[unsafe(no_mangle)]
pub extern "C" fn meskvorn_build_extended(
    bus: &mut [[u8; 24]; 16],
    addresses: &[u8],
    secondaries: &[u8],
    system: u8,
) -> u64
    ensures { Built (build_extended (names_of addresses.now secondaries.now) (place system))
        bus.new result }
{
    meskvorn::builds::meskvorn_build_extended(bus, addresses, secondaries, system)
}

// What a build named a party on the bus that the rows hold.
#[unsafe(no_mangle)]
pub extern "C" fn meskvorn_name(bus: &[[u8; 24]; 16], party: u8) -> u16
    ensures { result ≡ name_number (bus_of bus.now) party }
{
    meskvorn::builds::meskvorn_name(bus, party)
}

// Any operation other than build.
#[unsafe(no_mangle)]
pub extern "C" fn meskvorn_call(
    bus: &mut [[u8; 24]; 16],
    op: u8,
    party: u8,
    value: u8,
    extra: u8,
) -> u64
    ensures { Replied (answer_by_number (bus_of bus.old) op party value extra)
        bus.old bus.new result }
{
    meskvorn::host::meskvorn_call(bus, op, party, value, extra)
}

// What a party's register at an offset holds.
#[unsafe(no_mangle)]
pub extern "C" fn meskvorn_read_register(bus: &mut [[u8; 24]; 16], party: u8, offset: u8) -> u64
    ensures { Replied (accessed (bus_of bus.old) (place party) (access.Read offset))
        bus.old bus.new result }
{
    meskvorn::host::meskvorn_read_register(bus, party, offset)
}

// A value for a party's register at an offset.
#[unsafe(no_mangle)]
pub extern "C" fn meskvorn_write_register(
    bus: &mut [[u8; 24]; 16],
    party: u8,
    offset: u8,
    value: u8,
) -> u64
    ensures { Replied (accessed (bus_of bus.old) (place party) (access.Write offset value))
        bus.old bus.new result }
{
    meskvorn::host::meskvorn_write_register(bus, party, offset, value)
}

// A party's own status, 0 or 1.
#[unsafe(no_mangle)]
pub extern "C" fn meskvorn_own_status(bus: &mut [[u8; 24]; 16], party: u8, value: u8) -> u64
    ensures { Replied (call (bus_of bus.old) (call_of.Of (place party) (act_of.OwnStatus value)))
        bus.old bus.new result }
{
    meskvorn::host::meskvorn_own_status(bus, party, value)
}

// A parallel poll by a party.
#[unsafe(no_mangle)]
pub extern "C" fn meskvorn_parallel_poll(bus: &mut [[u8; 24]; 16], party: u8) -> u64
    ensures { Replied (call (bus_of bus.old) (call_of.Of (place party) act_of.ParallelPoll))
        bus.old bus.new result }
{
    meskvorn::host::meskvorn_parallel_poll(bus, party)
}

// So many turns on the bus that the rows hold, each to the party that has waited longest, ties by address. Gives the
// number of the refusal, and to counts how many turns each place had. A refused run leaves the rows byte for byte.
#[unsafe(no_mangle)]
pub extern "C" fn meskvorn_turns(bus: &mut [[u8; 24]; 16], turns: u16, counts: &mut [u16; 15]) -> u8
    ensures { Gave (turns_given (bus_of bus.old) turns)
        bus.old bus.new counts.new result }
{
    meskvorn::turns::meskvorn_turns(bus, turns, counts)
}

// Who drives each line of the bus that the rows hold, to masks, and how many, to counts: ATN, DAV, NRFD, NDAC, EOI,
// SRQ. Gives the answer, which is never a refusal.
#[unsafe(no_mangle)]
pub extern "C" fn meskvorn_drivers(
    bus: &mut [[u8; 24]; 16],
    masks: &mut [u16; 6],
    counts: &mut [u32; 6],
) -> u64
    ensures { Counted (drivers (bus_of bus.old))
        bus.new masks.new counts.new result }
{
    meskvorn::drivers::meskvorn_drivers(bus, masks, counts)
}
