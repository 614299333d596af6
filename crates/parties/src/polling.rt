// The parallel poll: which of its eight lines the parties answer on.
ghost use Rattle.std.specs.Prelude.{◌≡◌};
ghost use Rattle.party.specs.Driving.{answers_poll};
ghost use Rattle.parties.specs.Places.{at, within};
ghost use Rattle.parties.specs.Lines.{mask, poll_byte};

use crate::every::within;
use crate::sweeping::{has_driver, pushed};
use party::Party;

// Who answers on a line, as a mask. The array comes with its count, as the definition has them.
fn answering(ps: [Party; 15], count: u8, line: u8) -> u16
    ensures { result ≡ mask (within count) (λ i. answers_poll line (at ps i)) }
{
    let mut m = 0;
    for k in (0..within(count)).rev() {
        m = pushed(m, ps[k].answers_poll(line));
    }
    m
}

// The lines as a byte, from line 8 down to line 1, which is the lowest.
pub fn poll_byte(ps: [Party; 15], count: u8) -> u8
    ensures { result ≡ poll_byte count ps }
{
    let mut m = 0;
    for line in (0..8).rev() {
        m = pushed(m, has_driver(answering(ps, count, line)));
    }
    (m % 256) as u8
}
