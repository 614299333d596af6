// A party of the bus: its states, and what one party drives, hears, offers and settles to.
#![tactic(auto)]

ghost use Rattle.std.specs.Prelude.{◌≡◌};
ghost use Rattle.party.specs.Parts.{built_party, with_feoi, with_ist};
ghost use Rattle.role.specs.Roles.{unaddressed};

use names::Name;
use offer::Byte;
use role::Role;
use service::Request;

pub mod clearing;
pub mod driving;
pub mod hearing;
pub mod parts;
pub mod sending;
pub mod settling;

// A party's place on the bus, from 0. Document 01: "a party's place and its address are separate kinds of number".
#[derive(Clone, Copy, PartialEq, Eq)]
pub struct Place(pub u8);

#[derive(Clone, Copy)]
pub enum Control {
    Idle,
    Standby,
    Active,
}

// The source handshake.
#[derive(Clone, Copy)]
pub enum Source {
    Sids,
    Sgns,
    Sdys,
    Strs,
}

// The acceptor handshake.
#[derive(Clone, Copy)]
pub enum Acceptor {
    Aids,
    Anrs,
    Acrs,
    Acds,
    Awns,
}

// What the host sets aside in its party for later. No command and no step touches it.
#[derive(Clone, Copy)]
pub struct Latches {
    // The chip's feoi: the next byte that is written through its data out register has END.
    pub feoi: bool,
    // Document 02, Q-8: the party's own status, which a parallel poll asks for. The standard: ist.
    pub ist: bool,
}

impl Latches {
    pub const IDLE: Latches = Latches {
        feoi: false,
        ist: false,
    };

    pub fn with_feoi(self, feoi: bool) -> Latches
        ensures { result ≡ with_feoi feoi self }
    {
        Latches { feoi, ..self }
    }

    pub fn with_ist(self, ist: bool) -> Latches
        ensures { result ≡ with_ist ist self }
    {
        Latches { ist, ..self }
    }
}

#[derive(Clone, Copy)]
pub struct Party {
    pub role: Role,
    pub control: Control,
    pub source: Source,
    pub acceptor: Acceptor,
    pub held: Option<Byte>,
    // The data-in byte.
    pub input: Option<Byte>,
    pub request: Request,
    pub latches: Latches,
}

impl Party {
    // Document 01: "the idle party is one constant that belongs to its type".
    pub const IDLE: Party = Party {
        role: Role::IDLE,
        control: Control::Idle,
        source: Source::Sids,
        acceptor: Acceptor::Aids,
        held: None,
        input: None,
        request: Request::IDLE,
        latches: Latches::IDLE,
    };

    // The party that a build gives this name.
    pub fn build(name: Name) -> Party
        ensures { result ≡ built_party name }
    {
        Party {
            role: Role::unaddressed(name),
            ..Party::IDLE
        }
    }
}
