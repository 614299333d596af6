// Hearing, of one party.
ghost use Rattle.std.specs.Prelude.{◌≡◌};
ghost use Rattle.party.specs.Sending.{party_heard};

use crate::Party;
use message::meaning_of;

impl Party {
    // The party once it has heard a command.
    pub fn heard(self, v: u8) -> Party
        ensures { result ≡ party_heard v self }
    {
        self.with_role(self.role.heard(meaning_of(v)))
    }
}
