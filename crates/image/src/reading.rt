// From rows to the bus that they say. Every number is read as some case, the first where it is none: no TryFrom.
ghost use Rattle.std.specs.Prelude.{◌≡◌, map, take};
ghost use Rattle.image.specs.Image.{flag, mark_of, secondary_of, role_of, control_of, source_of, acceptor_of};
ghost use Rattle.image.specs.Image.{service_of, slot_of, byte_of, standing_of, response_of, party_of, bus_with};
ghost use Rattle.image.specs.Image.{bus_of};

use bus::Bus;
use effect::Standing;
use message::{Address, SecondaryAddress};
use names::Name;
use offer::{Byte, Kind};
use party::{Acceptor, Control, Latches, Party, Place, Source};
use role::{Mark, Response, Role};
use service::{Request, Service};

fn flag(n: u8) -> bool
    ensures { result ≡ flag n }
{
    n == 1
}

fn mark_of(n: u8) -> Mark
    ensures { result ≡ mark_of n }
{
    match n {
        1 => Mark::TalkPrimary,
        2 => Mark::ListenPrimary,
        3 => Mark::Configuring,
        _ => Mark::Unmarked,
    }
}

fn secondary_of(given: u8, number: u8) -> Option<SecondaryAddress>
    ensures { result ≡ secondary_of given number }
{
    flag(given).then_some(SecondaryAddress(number))
}

fn control_of(n: u8) -> Control
    ensures { result ≡ control_of n }
{
    match n {
        1 => Control::Standby,
        2 => Control::Active,
        _ => Control::Idle,
    }
}

fn source_of(n: u8) -> Source
    ensures { result ≡ source_of n }
{
    match n {
        1 => Source::Sgns,
        2 => Source::Sdys,
        3 => Source::Strs,
        _ => Source::Sids,
    }
}

fn acceptor_of(n: u8) -> Acceptor
    ensures { result ≡ acceptor_of n }
{
    match n {
        1 => Acceptor::Anrs,
        2 => Acceptor::Acrs,
        3 => Acceptor::Acds,
        4 => Acceptor::Awns,
        _ => Acceptor::Aids,
    }
}

fn service_of(n: u8) -> Service
    ensures { result ≡ service_of n }
{
    match n {
        1 => Service::Srqs,
        2 => Service::Aprs,
        _ => Service::Nprs,
    }
}

fn slot_of(full: u8, value: u8, end: u8) -> Option<Byte>
    ensures { result ≡ slot_of full value end }
{
    flag(full).then_some(Byte {
        value,
        end: flag(end),
    })
}

fn byte_of(kind: Kind, sender: u8, value: u8, end: u8) -> Option<Standing>
    ensures { result ≡ byte_of kind sender value end }
{
    Some(Standing {
        sender: Place(sender),
        kind,
        value,
        end: flag(end),
    })
}

fn standing_of(tag: u8, sender: u8, value: u8, end: u8) -> Option<Standing>
    ensures { result ≡ standing_of tag sender value end }
{
    match tag {
        1 => byte_of(Kind::Command, sender, value, end),
        2 => byte_of(Kind::Data, sender, value, end),
        3 => byte_of(Kind::Status, sender, value, end),
        _ => None,
    }
}

fn response_of(tag: u8, line: u8) -> Option<Response>
    ensures { result ≡ response_of tag line }
{
    match tag {
        1 => Some(Response { sense: false, line }),
        2 => Some(Response { sense: true, line }),
        _ => None,
    }
}

fn role_of(row: [u8; 24]) -> Role
    ensures { result ≡ role_of row }
{
    Role {
        name: Name {
            address: Address(row[0]),
            secondary: secondary_of(row[16], row[17]),
        },
        talk: flag(row[1]),
        listen: flag(row[2]),
        poll: flag(row[3]),
        mark: mark_of(row[18]),
        response: response_of(row[21], row[22]),
    }
}

fn party_of(row: [u8; 24]) -> Party
    ensures { result ≡ party_of row }
{
    Party {
        role: role_of(row),
        control: control_of(row[4]),
        source: source_of(row[5]),
        acceptor: acceptor_of(row[6]),
        held: slot_of(row[7], row[8], row[9]),
        input: slot_of(row[10], row[11], row[12]),
        request: Request {
            live: row[13],
            saved: row[14],
            rsv2: flag(row[19]),
            service: service_of(row[15]),
        },
        latches: Latches {
            feoi: flag(row[20]),
            ist: flag(row[23]),
        },
    }
}

fn bus_with(parties: [Party; 15], row: [u8; 24]) -> Bus
    ensures { result ≡ bus_with parties row }
{
    Bus {
        parties,
        count: row[0],
        system: Place(row[1]),
        standing: standing_of(row[2], row[3], row[4], row[5]),
    }
}

#[tactic(auto, using(crate::proofs::Loops::turn))]
fn parties_of(rows: [[u8; 24]; 16]) -> [Party; 15]
    ensures { result ≡ map party_of (take 15 rows) }
{
    let mut out = [Party::IDLE; 15];
    for k in 0..15 {
        out[k] = party_of(rows[k]);
    }
    out
}

// Every content is read as some bus.
#[tactic(auto, unfolding(crate::specs::Image::bus_of))]
pub fn bus_of(rows: [[u8; 24]; 16]) -> Bus
    ensures { result ≡ bus_of rows }
{
    bus_with(parties_of(rows), rows[15])
}
