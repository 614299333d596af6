// A call and its refusal: the party that it names, its switch, and the number of what it meets.
ghost use Rattle.std.specs.Prelude.{◌≡◌};
ghost use Rattle.effect.specs.Calls.{refusal_number, verdict_number, place_of, is_on};

use crate::{Call, Refusal, Verdict};
use party::Place;

impl Refusal {
    pub fn number(self) -> u8
        ensures { result ≡ refusal_number self }
    {
        self as u8
    }
}

// The refusal's number, and 0 for an accepted call.
pub fn verdict_number(v: Verdict) -> u8
    ensures { result ≡ verdict_number v }
{
    match v {
        Ok(()) => 0,
        Err(r) => r.number(),
    }
}

impl Call {
    // The party that a call names; lines and drivers name none.
    pub fn place(self) -> Place
        ensures { result ≡ place_of self }
    {
        match self {
            Call::Of(p, _) => p,
            Call::Lines | Call::Drivers => Place(0),
        }
    }
}

// A switch or an END that is 1.
pub fn is_on(x: u8) -> bool
    ensures { result ≡ is_on x }
{
    x == 1
}
