// Building a bus.
ghost use Rattle.std.specs.Prelude.{◌≡◌, ◌≤◌, length};
ghost use Rattle.addresses.specs.Addresses.{names, names_of, placed};
ghost use Rattle.bus.specs.Record.{build, build_extended};

use crate::{Answer, Bus};
use addresses::Roster;
use effect::Refusal;
use party::{Party, Place};

// A party for each address, with its secondary, then the idle party.
fn placed(roster: Roster<'_>) -> [Party; 15]
    requires { length roster.addresses.now ≤ 15 }
    ensures { result ≡ placed 15 (names roster.entry.addresses.now roster.entry.secondaries.now) }
{
    let mut out = [Party::IDLE; 15];
    for k in 0..roster.addresses.len() {
        out[k] = Party::build(roster.name_at(k));
    }
    out
}

impl Bus {
    // A bus with a party at each address; a refused build gives the bus of no parties.
    pub fn build(addresses: &[u8], system: Place) -> Answer
        ensures { result ≡ build addresses.now system }
    {
        Bus::build_extended(addresses, b"", system)
    }

    // The same with the parties' secondaries, NO_SECONDARY where a party has none. The list is empty, or as long as the
    // addresses.
    pub fn build_extended(addresses: &[u8], secondaries: &[u8], system: Place) -> Answer
        ensures { result ≡ build_extended (names_of addresses.now secondaries.now) system }
    {
        let roster = Roster {
            addresses,
            secondaries,
        };
        if !roster.go_together() {
            return Bus::EMPTY.refuse(Refusal::BadBuild);
        }
        if roster.bad_build(system) {
            return Bus::EMPTY.refuse(Refusal::BadBuild);
        }
        let bus = Bus {
            parties: placed(roster),
            count: (addresses.len() % 256) as u8,
            system,
            standing: None,
        };
        bus.accept()
    }
}
