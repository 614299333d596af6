// The parties that drive each line, as masks: one pass over the parties makes them, and they tell the lines, the other
// talker, and how many drive each line.
ghost use Rattle.std.specs.Prelude.{◌≡◌, cond, eqb};
ghost use Rattle.parties.specs.Places.{within};
ghost use Rattle.parties.specs.Lines.{mask, has_driver, counts_of};
ghost use Rattle.parties.specs.Sweeping.{sweep_of, pushed, swept_by, without, first_of, told, masks_with};

use crate::every::within;
use crate::{Counts, EachLine, Masks, Scan, Sweep};
use party::{Party, Place};

// A mask with one party more, below those that it has.
pub(crate) fn pushed(m: u16, on: bool) -> u16
    ensures { result ≡ pushed m on }
{
    (m << 1) | (on as u16)
}

pub fn has_driver(m: u16) -> bool
    ensures { result ≡ has_driver m }
{
    m != 0
}

// The mask of the party at a place alone, of so many parties; of nobody where there is none.
pub fn bit_of(p: Place, count: u8) -> u16
    ensures { result ≡ mask (within count) (λ i. eqb i p.0) }
{
    let n = within(count);
    let at = p.0 as usize;
    if at < n { 1u16 << (at as u16) } else { 0 }
}

fn without(m: u16, i: usize) -> u16
    ensures { result ≡ without m i }
{
    if i < 15 && (m >> i) % 2 == 1 {
        m - (1 << i)
    } else {
        m
    }
}

// The mask where a test holds, and nobody's where it does not.
pub fn only_if(on: bool, m: u16) -> u16
    ensures { result ≡ cond on m 0 }
{
    if on { m } else { 0 }
}

// The lowest place of a mask.
fn first_of(m: u16) -> Option<Place>
    ensures { result ≡ first_of m }
{
    (m != 0).then_some(Place((m.trailing_zeros() % 256) as u8))
}

impl Sweep {
    // Nothing seen yet.
    const NONE: Sweep = Sweep {
        atn: 0,
        dav: 0,
        nrfd: 0,
        ndac: 0,
        srq: 0,
        talk: 0,
    };

    // With the party at the place below those that were seen.
    fn swept_by(self, p: Party) -> Sweep
        ensures { result ≡ swept_by self p }
    {
        Sweep {
            atn: pushed(self.atn, p.is_active()),
            dav: pushed(self.dav, p.drives_dav()),
            nrfd: pushed(self.nrfd, p.drives_nrfd()),
            ndac: pushed(self.ndac, p.drives_ndac()),
            srq: pushed(self.srq, p.drives_srq()),
            talk: pushed(self.talk, p.role.talk),
        }
    }

    // What a call of the party at place i is told: the lines, and the first other party that talks.
    pub fn told(self, i: usize, eoi: bool) -> Scan
        ensures { result ≡ told self i eoi }
    {
        let lines = EachLine {
            atn: has_driver(self.atn),
            dav: has_driver(self.dav),
            nrfd: has_driver(self.nrfd),
            ndac: has_driver(self.ndac),
            eoi,
            srq: has_driver(self.srq),
        };
        Scan {
            lines,
            talker: first_of(without(self.talk, i)),
        }
    }

    // The masks of all lines. That of EOI is its sender's, which what stands on the bus decides and no party's state.
    pub fn masks_with(self, sender: u16) -> Masks
        ensures { result ≡ masks_with self sender }
    {
        EachLine {
            atn: self.atn,
            dav: self.dav,
            nrfd: self.nrfd,
            ndac: self.ndac,
            eoi: sender,
            srq: self.srq,
        }
    }
}

// The pass: from the last party to the first, all masks together. The array comes with its count, as the definition has
// them.
pub fn sweep_of(ps: [Party; 15], count: u8) -> Sweep
    ensures { result ≡ sweep_of (within count) ps }
{
    let mut s = Sweep::NONE;
    for k in (0..within(count)).rev() {
        s = s.swept_by(ps[k]);
    }
    s
}

impl Masks {
    // How many parties drive each line.
    pub fn counts(self) -> Counts
        ensures { result ≡ counts_of self }
    {
        EachLine {
            atn: self.atn.count_ones(),
            dav: self.dav.count_ones(),
            nrfd: self.nrfd.count_ones(),
            ndac: self.ndac.count_ones(),
            eoi: self.eoi.count_ones(),
            srq: self.srq.count_ones(),
        }
    }
}
