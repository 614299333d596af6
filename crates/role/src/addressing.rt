// Addressing: what the own primary and a secondary do to who hears them.
ghost use Rattle.std.specs.Prelude.{◌≡◌};
ghost use Rattle.role.specs.Roles.{owns, owns_secondary, mark_set, listen_addressed, talk_addressed, seconded};

use crate::{Mark, Role};
use message::{Address, SecondaryAddress};

// The mark that a primary address sets, the own one or not, for a party with this secondary.
pub(crate) fn mark_set(secondary: Option<SecondaryAddress>, mine: bool, mark: Mark) -> Mark
    ensures { result ≡ mark_set secondary mine mark }
{
    match secondary {
        Some(_) if mine => mark,
        _ => Mark::Unmarked,
    }
}

impl Role {
    pub(crate) fn owns(self, a: Address) -> bool
        ensures { result ≡ owns a self }
    {
        a == self.name.address
    }

    pub(crate) fn owns_secondary(self, s: SecondaryAddress) -> bool
        ensures { result ≡ owns_secondary s self }
    {
        self.name.is_given(s)
    }

    // A listen address, the own one or not, for a party with this secondary.
    pub(crate) fn listen_addressed(self, secondary: Option<SecondaryAddress>, mine: bool) -> Role
        ensures { result ≡ listen_addressed secondary mine self }
    {
        match secondary {
            None if mine => self.with_flags(false, true),
            _ => self,
        }
    }

    // A talk address, the own one or not, for a party with this secondary.
    pub(crate) fn talk_addressed(self, secondary: Option<SecondaryAddress>, mine: bool) -> Role
        ensures { result ≡ talk_addressed secondary mine self }
    {
        match secondary {
            _ if !mine => self.with_flags(false, self.listen),
            None => self.with_flags(true, false), // the primary is the whole address
            Some(_) => self, // the secondary is to come
        }
    }

    // A secondary, the own one or not, with this mark set.
    pub(crate) fn seconded(self, mark: Mark, mine: bool) -> Role
        ensures { result ≡ seconded mark mine self }
    {
        match mark {
            Mark::TalkPrimary if mine => self.with_flags(true, false),
            Mark::TalkPrimary => self.with_flags(false, self.listen), // another one's secondary
            Mark::ListenPrimary if mine => self.with_flags(false, true),
            _ => self, // while configuring it is no address
        }
    }
}
