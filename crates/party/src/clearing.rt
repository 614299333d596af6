// Reset, interface clear and a change of control, of one party.
ghost use Rattle.std.specs.Prelude.{◌≡◌, ◌≤◌};
ghost use Rattle.party.specs.Parts.{held_bytes};
ghost use Rattle.party.specs.Settling.{wiped, cleared, clear_drops, change_control};

use crate::{Control, Party};
use role::Role;

impl Party {
    // How many bytes are held: 1 or 0.
    pub fn held_bytes(self) -> u8
        ensures { (result ≡ held_bytes self) × (result ≤ 1) }
    {
        self.held.is_some() as u8
    }

    // A party that becomes or stops being active.
    pub fn change_control(self, control: Control) -> Party
        ensures { result ≡ change_control control self }
    {
        Party {
            control,
            held: None,
            ..self
        }
    }

    // A party after its reset, but for its acceptor.
    pub fn wiped(self) -> Party
        ensures { result ≡ wiped self }
    {
        Party {
            role: Role::unaddressed(self.role.name),
            control: Control::Idle,
            held: None,
            input: None,
            request: self.request.with_rsv2(false),
            latches: self.latches.with_feoi(false),
            ..self
        }
    }

    // A party after an interface clear, before attention.
    pub fn cleared(self) -> Party
        ensures { result ≡ cleared self }
    {
        Party {
            role: self.role.flags_off(),
            control: Control::Idle,
            held: if self.is_active() { None } else { self.held },
            ..self
        }
    }

    // How many bytes an interface clear takes from this party.
    pub fn clear_drops(self) -> u8
        ensures { (result ≡ clear_drops self) × (result ≤ 1) }
    {
        if self.is_active() {
            self.held_bytes()
        } else {
            0
        }
    }
}
