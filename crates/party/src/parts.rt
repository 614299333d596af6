// A party with one part changed: a function for each part, as the definitions have them.
ghost use Rattle.std.specs.Prelude.{◌≡◌};
ghost use Rattle.party.specs.Parts.{with_role, with_control, with_source, with_acceptor, with_held, with_input};
ghost use Rattle.party.specs.Parts.{with_request, with_latches};

use crate::{Acceptor, Control, Latches, Party, Source};
use offer::Byte;
use role::Role;
use service::Request;

impl Party {
    pub fn with_role(self, role: Role) -> Party
        ensures { result ≡ with_role role self }
    {
        Party { role, ..self }
    }

    pub fn with_control(self, control: Control) -> Party
        ensures { result ≡ with_control control self }
    {
        Party { control, ..self }
    }

    pub fn with_source(self, source: Source) -> Party
        ensures { result ≡ with_source source self }
    {
        Party { source, ..self }
    }

    pub fn with_acceptor(self, acceptor: Acceptor) -> Party
        ensures { result ≡ with_acceptor acceptor self }
    {
        Party { acceptor, ..self }
    }

    pub fn with_held(self, held: Option<Byte>) -> Party
        ensures { result ≡ with_held held self }
    {
        Party { held, ..self }
    }

    pub fn with_input(self, input: Option<Byte>) -> Party
        ensures { result ≡ with_input input self }
    {
        Party { input, ..self }
    }

    pub fn with_request(self, request: Request) -> Party
        ensures { result ≡ with_request request self }
    {
        Party { request, ..self }
    }

    pub fn with_latches(self, latches: Latches) -> Party
        ensures { result ≡ with_latches latches self }
    {
        Party { latches, ..self }
    }
}
