// Names: what a build fixes of a party, which of them make a bus, and which two may not be on one.
#![tactic(auto)]

ghost use Rattle.std.specs.Prelude.{◌≡◌};
ghost use Rattle.names.specs.Names.{is_over30, meets, clashes, is_given};

use message::{Address, SecondaryAddress};

// What a build fixes of a party. One with a secondary is the standard's extended talker and listener.
#[derive(Clone, Copy)]
pub struct Name {
    pub address: Address,
    pub secondary: Option<SecondaryAddress>,
}

// Do two parties at one primary answer to the same bytes? A plain party hears the primary alone.
fn meets(one: Option<SecondaryAddress>, other: Option<SecondaryAddress>) -> bool
    ensures { result ≡ meets one other }
{
    match other {
        None => true,
        Some(t) => one.map_or(true, |s| s == t),
    }
}

impl Name {
    pub const IDLE: Name = Name {
        address: Address(0),
        secondary: None,
    };

    pub fn is_over_30(self) -> bool
        ensures { result ≡ is_over30 self }
    {
        30 < self.address.0 || self.secondary.is_some_and(|s| 30 < s.0)
    }

    // May no bus have two parties of these names?
    pub fn clashes(self, other: Name) -> bool
        ensures { result ≡ clashes self other }
    {
        self.address == other.address && meets(self.secondary, other.secondary)
    }

    // Is this its secondary?
    pub fn is_given(self, s: SecondaryAddress) -> bool
        ensures { result ≡ is_given s self.secondary }
    {
        self.secondary == Some(s)
    }
}
