// The party at a place, and the loops over every party. The array and the count beside it are the bus's own two fields,
// in the form that document 01 names.
ghost use Rattle.std.specs.Prelude.{◌≡◌, ◌≤◌, ◌<◌, set};
ghost use Rattle.party.specs.Settling.{clear_drops, attended, settled, cleared};
ghost use Rattle.parties.specs.Places.{at, each, total, within, slot};
ghost use Rattle.party.specs.declared.Party.{Party};

use party::{Party, Place};

// How many of the fifteen places have parties.
pub fn within(count: u8) -> usize
    ensures { (result ≡ within count) × (result ≤ 15) }
{
    if count < 15 { count as usize } else { 15 }
}

// Which of the fifteen places a number is, and the first where it is none.
pub fn slot(p: Place) -> usize
    ensures { (result ≡ slot p.0) × (result < 15) }
{
    if p.0 < 15 { p.0 as usize } else { 0 }
}

// The party at a place, and the idle party where there is none.
pub fn at(ps: [Party; 15], p: Place) -> Party
    ensures { result ≡ at ps p.0 }
{
    let i = p.0 as usize;
    if i < 15 { ps[i] } else { Party::IDLE }
}

// The parties with q at a place, and as they were where there is no such place.
pub fn with_party(ps: [Party; 15], p: Place, q: Party) -> [Party; 15]
    ensures { result ≡ set ps p.0 q }
{
    let i = p.0 as usize;
    if i < 15 {
        let mut out = ps;
        out[i] = q;
        return out;
    }
    ps
}

// What some calls do to every party.
pub trait Change: Copy {
    ghost changed: { Self → Party → Party };

    fn changed(self, p: Party) -> Party
        ensures { result ≡ changed self p };
}

// Settling, with ATN as the call left it.
#[derive(Clone, Copy)]
pub struct Settle(pub bool);

// Attention with ATN as it then is, and then settling.
#[derive(Clone, Copy)]
pub struct Attend(pub bool);

// The first part of an interface clear.
#[derive(Clone, Copy)]
pub struct Clear;

impl Change for Settle {
    ghost changed = { λ c p. settled c.0 p };

    fn changed(self, p: Party) -> Party {
        p.settled(self.0)
    }
}

impl Change for Attend {
    ghost changed = { λ c p. settled c.0 (attended c.0 p) };

    fn changed(self, p: Party) -> Party {
        p.attended(self.0).settled(self.0)
    }
}

impl Change for Clear {
    ghost changed = { λ _ p. cleared p };

    fn changed(self, p: Party) -> Party {
        p.cleared()
    }
}

// Every party changed.
pub fn change_all<C: Change>(ps: &mut [Party; 15], count: u8, c: C)
    ensures { ps.new ≡ each count (C.changed c) ps.old }
{
    for p in &mut ps[..within(count)] {
        *p = c.changed(*p);
    }
}

// The bytes that an interface clear takes from the active party.
pub fn clear_drops(ps: [Party; 15], count: u8) -> u8
    ensures { (result ≡ total count clear_drops ps) × (result ≤ 15) }
{
    let mut sum = 0;
    for p in &ps[..within(count)] {
        sum += p.clear_drops();
    }
    sum
}
