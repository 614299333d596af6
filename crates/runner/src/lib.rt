// The runner: it gives a stated number of turns.
#![tactic(auto)]

ghost use Rattle.std.specs.Prelude.{◌≡◌};
ghost use Rattle.runner.specs.Ties.{by_address};
ghost use Rattle.runner.specs.Runner.{give_turns};

use bus::Bus;
use effect::{Refusal, Verdict};
use parties::every::within;
use party::Place;

mod order;

// What a run answers: how many turns each place had, and the bus after them.
#[derive(Clone, Copy)]
pub struct Given {
    pub verdict: Verdict,
    pub counts: [u16; 15],
    pub bus: Bus,
}

// Steps the party that has waited longest, ties by address, until it has given so many turns. All parties wait equally
// long at the start, and the proof has that they then have their turns round by round in the tie order.
pub fn give_turns(bus: Bus, turns: u16) -> Given
    ensures { result ≡ give_turns (by_address bus) bus turns }
{
    let mut counts = [0u16; 15];
    if bus.count == 0 {
        return Given {
            verdict: Err(Refusal::NoParty),
            counts,
            bus,
        };
    }
    let n = within(bus.count);
    let keys = order::keys_in_order(bus);
    let mut after = bus;
    for t in 0..turns {
        let place = keys[usize::from(t) % n] % 16;
        after = after.step(Place(place as u8)).bus;
        counts[place as usize] += 1;
    }
    Given {
        verdict: Ok(()),
        counts,
        bus: after,
    }
}
