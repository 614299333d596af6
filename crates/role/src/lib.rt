// A party's role: its name and flags, and what hearing does to them.
#![tactic(auto)]

ghost use Rattle.std.specs.Prelude.{◌≡◌};
ghost use Rattle.role.specs.Roles.{unaddressed, with_flags, with_poll_mode, with_mark, with_response, flags_off};
ghost use Rattle.role.specs.Roles.{without_address};

use names::Name;

pub mod addressing;
pub mod configuring;
pub mod hearing;

// What a secondary is for. Document 02, Q-3: "talk primary" and "listen primary", of which each clears the other; Q-8:
// "configuring". The standard: TPAS, LPAS and PACS.
#[derive(Clone, Copy)]
pub enum Mark {
    Unmarked,
    TalkPrimary,
    ListenPrimary,
    Configuring,
}

// How a party answers a parallel poll: on which of the eight lines, from 0, and at which own status.
#[derive(Clone, Copy)]
pub struct Response {
    pub sense: bool,
    pub line: u8,
}

// What hearing reads and writes: the name, the flags talk, listen and poll mode, the mark, and the response.
#[derive(Clone, Copy)]
pub struct Role {
    pub name: Name,
    pub talk: bool,
    pub listen: bool,
    pub poll: bool,
    pub mark: Mark,
    pub response: Option<Response>,
}

impl Mark {
    // Attention and interface clear drop the marks of addressing alone.
    pub fn without_address(self) -> Mark
        ensures { result ≡ without_address self }
    {
        match self {
            Mark::Unmarked | Mark::TalkPrimary | Mark::ListenPrimary => Mark::Unmarked,
            Mark::Configuring => Mark::Configuring,
        }
    }
}

impl Role {
    pub const IDLE: Role = Role {
        name: Name::IDLE,
        talk: false,
        listen: false,
        poll: false,
        mark: Mark::Unmarked,
        response: None,
    };

    // All flags and marks off, and no response.
    pub fn unaddressed(name: Name) -> Role
        ensures { result ≡ unaddressed name }
    {
        Role { name, ..Role::IDLE }
    }

    // All flags off.
    pub fn flags_off(self) -> Role
        ensures { result ≡ flags_off self }
    {
        Role {
            talk: false,
            listen: false,
            poll: false,
            ..self
        }
    }

    pub fn with_flags(self, talk: bool, listen: bool) -> Role
        ensures { result ≡ with_flags talk listen self }
    {
        Role {
            talk,
            listen,
            ..self
        }
    }

    pub fn with_poll_mode(self, poll: bool) -> Role
        ensures { result ≡ with_poll_mode poll self }
    {
        Role { poll, ..self }
    }

    pub fn with_mark(self, mark: Mark) -> Role
        ensures { result ≡ with_mark mark self }
    {
        Role { mark, ..self }
    }

    pub fn with_response(self, response: Option<Response>) -> Role
        ensures { result ≡ with_response response self }
    {
        Role { response, ..self }
    }
}
