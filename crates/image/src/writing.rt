// From a bus to its rows.
ghost use Rattle.std.specs.Prelude.{◌≡◌};
ghost use Rattle.image.specs.Image.{mark_number, control_number, source_number, acceptor_number, service_number};
ghost use Rattle.image.specs.Image.{secondary_number, slot_value, slot_end, standing_tag, standing_sender};
ghost use Rattle.image.specs.Image.{standing_value, response_tag, response_line, row_of, last_row, rows_of};

use bus::Bus;
use effect::Standing;
use effect::stands::has_end;
use message::SecondaryAddress;
use offer::Byte;
use party::{Acceptor, Control, Party, Source};
use role::{Mark, Response};
use service::Service;

fn mark_number(m: Mark) -> u8
    ensures { result ≡ mark_number m }
{
    m as u8
}

fn control_number(c: Control) -> u8
    ensures { result ≡ control_number c }
{
    c as u8
}

fn source_number(s: Source) -> u8
    ensures { result ≡ source_number s }
{
    s as u8
}

fn acceptor_number(a: Acceptor) -> u8
    ensures { result ≡ acceptor_number a }
{
    a as u8
}

fn service_number(s: Service) -> u8
    ensures { result ≡ service_number s }
{
    s as u8
}

fn secondary_number(s: Option<SecondaryAddress>) -> u8
    ensures { result ≡ secondary_number s }
{
    s.map_or(0, |own| own.0)
}

fn slot_value(s: Option<Byte>) -> u8
    ensures { result ≡ slot_value s }
{
    s.map_or(0, |b| b.value)
}

fn slot_end(s: Option<Byte>) -> bool
    ensures { result ≡ slot_end s }
{
    s.is_some_and(|b| b.end)
}

fn standing_tag(st: Option<Standing>) -> u8
    ensures { result ≡ standing_tag st }
{
    st.map_or(0, |b| b.kind as u8 + 1)
}

fn standing_sender(st: Option<Standing>) -> u8
    ensures { result ≡ standing_sender st }
{
    st.map_or(0, |b| b.sender.0)
}

fn standing_value(st: Option<Standing>) -> u8
    ensures { result ≡ standing_value st }
{
    st.map_or(0, |b| b.value)
}

fn response_tag(r: Option<Response>) -> u8
    ensures { result ≡ response_tag r }
{
    r.map_or(0, |r| r.sense as u8 + 1)
}

fn response_line(r: Option<Response>) -> u8
    ensures { result ≡ response_line r }
{
    r.map_or(0, |r| r.line)
}

fn row_of(p: Party) -> [u8; 24]
    ensures { result ≡ row_of p }
{
    [
        p.role.name.address.0,
        p.role.talk as u8,
        p.role.listen as u8,
        p.role.poll as u8,
        control_number(p.control),
        source_number(p.source),
        acceptor_number(p.acceptor),
        p.held.is_some() as u8,
        slot_value(p.held),
        slot_end(p.held) as u8,
        p.input.is_some() as u8,
        slot_value(p.input),
        slot_end(p.input) as u8,
        p.request.live,
        p.request.saved,
        service_number(p.request.service),
        p.role.name.secondary.is_some() as u8,
        secondary_number(p.role.name.secondary),
        mark_number(p.role.mark),
        p.request.rsv2 as u8,
        p.latches.feoi as u8,
        response_tag(p.role.response),
        response_line(p.role.response),
        p.latches.ist as u8,
    ]
}

fn last_row(b: Bus) -> [u8; 24]
    ensures { result ≡ last_row b }
{
    let mut row = [0; 24];
    row[0] = b.count;
    row[1] = b.system.0;
    row[2] = standing_tag(b.standing);
    row[3] = standing_sender(b.standing);
    row[4] = standing_value(b.standing);
    row[5] = has_end(b.standing) as u8;
    row
}

// A row for each place, then the last row.
#[tactic(auto, using(crate::proofs::Loops::turn), unfolding(crate::specs::Image::rows_of))]
pub fn rows_of(b: Bus) -> [[u8; 24]; 16]
    ensures { result ≡ rows_of b }
{
    let mut out = [last_row(b); 16];
    for k in 0..15 {
        out[k] = row_of(b.parties[k]);
    }
    out
}
