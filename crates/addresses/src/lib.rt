// The addresses of a build: the names that they give, and whether these make a bus.
#![tactic(auto)]

ghost use Rattle.std.specs.Prelude.{◌≡◌, get_or, drop};
ghost use Rattle.names.specs.Names.{plain};
ghost use Rattle.message.specs.Meaning.{address};
ghost use Rattle.addresses.specs.Addresses.{secondary_given, names, go_together};
ghost use Rattle.addresses.specs.Addresses.{any_over30, clashes_with, two_clash, bad_build};

use message::{Address, SecondaryAddress};
use names::Name;
use party::Place;

// What stands for no secondary in a list of them, which is the hosts' form, in C too.
pub const NO_SECONDARY: u8 = 255;

// What a host gives of the parties of a build, in two lists: where the second has ended nobody has a secondary.
#[derive(Clone, Copy)]
pub struct Roster<'a> {
    pub addresses: &'a [u8],
    pub secondaries: &'a [u8],
}

fn secondary_given(s: u8) -> Option<SecondaryAddress>
    ensures { result ≡ secondary_given s }
{
    (s != NO_SECONDARY).then_some(SecondaryAddress(s))
}

impl<'a> Roster<'a> {
    // The name of party i, and the idle party's where there is none.
    pub fn name_at(self, i: usize) -> Name
        ensures { result ≡ get_or (names self.entry.addresses.now self.entry.secondaries.now) i (plain (address 0)) }
    {
        if self.addresses.len() <= i {
            return Name::IDLE;
        }
        let address = Address(self.addresses[i]);
        if self.secondaries.len() <= i {
            return Name {
                address,
                secondary: None,
            };
        }
        Name {
            address,
            secondary: secondary_given(self.secondaries[i]),
        }
    }

    fn any_over_30(self) -> bool
        ensures { result ≡ any_over30 (names self.entry.addresses.now self.entry.secondaries.now) }
    {
        let mut found = false;
        for i in 0..self.addresses.len() {
            found |= self.name_at(i).is_over_30();
        }
        found
    }

    // May no bus have a party of this name beside one of those from place `from` on?
    fn clashes_with(self, n: Name, from: usize) -> bool
        ensures { result ≡ clashes_with n (drop from (names self.entry.addresses.now self.entry.secondaries.now)) }
    {
        let mut found = false;
        for i in from..self.addresses.len() {
            if n.clashes(self.name_at(i)) {
                found = true;
            }
        }
        found
    }

    fn two_clash(self) -> bool
        ensures { result ≡ two_clash (names self.entry.addresses.now self.entry.secondaries.now) }
    {
        let mut found = false;
        for i in 0..self.addresses.len() {
            found |= self.clashes_with(self.name_at(i), i + 1);
        }
        found
    }

    // A list of secondaries is empty, or as long as the addresses.
    #[tactic(auto, unfolding(crate::specs::Addresses::go_together))]
    pub fn go_together(self) -> bool
        ensures { result ≡ go_together self.entry.addresses.now self.entry.secondaries.now }
    {
        self.secondaries.is_empty() || self.secondaries.len() == self.addresses.len()
    }

    // Is this no bus to be built?
    pub fn bad_build(self, system: Place) -> bool
        ensures { result ≡ bad_build (names self.entry.addresses.now self.entry.secondaries.now) system }
    {
        let n = self.addresses.len();
        if n == 0 || 15 < n {
            return true;
        }
        if self.any_over_30() || self.two_clash() {
            return true;
        }
        let has_system = (system.0 as usize) < n;
        !has_system
    }
}
