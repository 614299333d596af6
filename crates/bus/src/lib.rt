// The bus: its parties, the standing byte, the calls on it and their answers.
#![tactic(auto)]

use effect::{Standing, Verdict};
use event::Event;
use parties::{Counts, Masks};
use party::{Party, Place};

pub mod building;
pub mod calls;
pub mod endings;

// The bus record. Places from count on have no party and hold the idle one.
#[derive(Clone, Copy)]
pub struct Bus {
    pub parties: [Party; 15],
    pub count: u8,
    // The system party, who alone may clear the interface.
    pub system: Place,
    pub standing: Option<Standing>,
}

// What a call answers, and the bus after it.
#[derive(Clone, Copy)]
pub struct Answer {
    pub verdict: Verdict,
    pub event: Event,
    pub byte: u8,
    pub end: bool,
    pub dropped: u8,
    pub broken: u8,
    pub bus: Bus,
}

// What the call that asks who drives the lines answers: who, and how many, of the bus as it was found; and what every
// call answers.
#[derive(Clone, Copy)]
pub struct Drivers {
    pub masks: Masks,
    pub counts: Counts,
    pub answer: Answer,
}

impl Bus {
    // The bus of no parties.
    pub const EMPTY: Bus = Bus {
        parties: [Party::IDLE; 15],
        count: 0,
        system: Place(0),
        standing: None,
    };
}
