// What a call does to its own party and to what stands.
ghost use Rattle.std.specs.Prelude.{◌≡◌};
ghost use Rattle.effect.specs.Effects.{say, does, stay, moved, quiet, then, with_standing};

use crate::{After, Effect, Outcome, Said, Standing, View};
use event::Event;
use party::Party;

impl Said {
    pub fn say(event: Event, byte: u8, end: bool, dropped: u8) -> Said
        ensures { result ≡ say event byte end dropped }
    {
        Said {
            event,
            byte,
            end,
            dropped,
        }
    }
}

impl Effect {
    // Settling follows, and no more.
    pub fn does(said: Said, party: Party, standing: Option<Standing>) -> Effect
        ensures { result ≡ does said party standing }
    {
        Effect {
            said,
            after: After::Settle,
            party,
            standing,
        }
    }
}

impl View {
    // Nothing happens.
    pub fn stay(self) -> Effect
        ensures { result ≡ stay self }
    {
        Effect::does(
            Said::say(Event::None, 0, false, 0),
            self.party,
            self.standing,
        )
    }

    // The party has moved, and no more is to be said.
    pub fn moved(self, party: Party) -> Effect
        ensures { result ≡ moved self party }
    {
        Effect::does(Said::say(Event::Moved, 0, false, 0), party, self.standing)
    }
}

impl Outcome {
    // Nothing is said but how many held bytes were dropped, and settling follows.
    pub fn quiet(dropped: u8, party: Party) -> Outcome
        ensures { result ≡ quiet dropped party }
    {
        Outcome {
            said: Said::say(Event::None, 0, false, dropped),
            after: After::Settle,
            party,
        }
    }

    // The same, with something else to follow.
    pub fn then(self, after: After) -> Outcome
        ensures { result ≡ then after self }
    {
        Outcome { after, ..self }
    }

    // The effect on a bus on which this stands. Another struct, so each field is named.
    pub fn with_standing(self, standing: Option<Standing>) -> Effect
        ensures { result ≡ with_standing standing self }
    {
        let Outcome { said, after, party } = self;
        Effect {
            said,
            after,
            party,
            standing,
        }
    }
}
