// Parallel poll: what configuring does to who hears it, and which line a party answers on.
ghost use Rattle.std.specs.Prelude.{◌≡◌};
ghost use Rattle.role.specs.Roles.{configured_by, response_set, configured, answers_on};

use crate::{Mark, Response};
use message::SecondaryAddress;

// The response that a secondary sets while configuring: sixteen codes set one, the others remove it.
pub(crate) fn response_set(s: SecondaryAddress) -> Option<Response>
    ensures { result ≡ response_set s }
{
    (s.0 < 16).then_some(Response {
        sense: s.0 / 8 == 1,
        line: s.0 % 8,
    })
}

impl Mark {
    // The mark of who hears PPC, listening or not.
    pub(crate) fn configured_by(self, listen: bool) -> Mark
        ensures { result ≡ configured_by listen self }
    {
        if listen {
            Mark::Configuring
        } else {
            self.without_address()
        }
    }

    // The response of who has heard, with this mark, what would make of one the other.
    pub(crate) fn configured(
        self,
        new: Option<Response>,
        response: Option<Response>,
    ) -> Option<Response>
        ensures { result ≡ configured self new response }
    {
        match self {
            Mark::Configuring => new,
            _ => response,
        }
    }
}

// Does a party with this own status answer on the line?
pub fn answers_on(response: Option<Response>, line: u8, status: bool) -> bool
    ensures { result ≡ answers_on line status response }
{
    response.is_some_and(|r| line == r.line && status == r.sense)
}
