// Hearing: what a command does to who hears it.
ghost use Rattle.std.specs.Prelude.{◌≡◌};
ghost use Rattle.role.specs.Roles.{mark_after, addressed, response_after, role_heard, hear_event};
ghost use Rattle.role.specs.Roles.{passes_control};

use crate::addressing::mark_set;
use crate::configuring::response_set;
use crate::{Mark, Response, Role};
use event::Event;
use message::Meaning;

impl Role {
    // The mark of who has heard a command.
    fn mark_after(self, m: Meaning) -> Mark
        ensures { result ≡ mark_after m self }
    {
        let secondary = self.name.secondary;
        match m {
            Meaning::Listen(a) => mark_set(secondary, self.owns(a), Mark::ListenPrimary),
            Meaning::Talk(a) => mark_set(secondary, self.owns(a), Mark::TalkPrimary),
            Meaning::Second(_) | Meaning::Neither => self.mark,
            Meaning::Ppc => self.mark.configured_by(self.listen),
            _ => Mark::Unmarked, // any other primary command
        }
    }

    // The flags of who has heard a command, with the mark as it was.
    fn addressed(self, m: Meaning) -> Role
        ensures { result ≡ addressed m self }
    {
        let secondary = self.name.secondary;
        match m {
            Meaning::Listen(a) => self.listen_addressed(secondary, self.owns(a)),
            Meaning::Unlisten => self.with_flags(self.talk, false),
            Meaning::Talk(a) => self.talk_addressed(secondary, self.owns(a)),
            Meaning::Untalk => self.with_flags(false, self.listen),
            Meaning::Spe => self.with_poll_mode(true),
            Meaning::Spd => self.with_poll_mode(false),
            Meaning::Second(s) => self.seconded(self.mark, self.owns_secondary(s)),
            _ => self,
        }
    }

    // The response of who has heard a command.
    fn response_after(self, m: Meaning) -> Option<Response>
        ensures { result ≡ response_after m self }
    {
        match m {
            Meaning::Second(s) => self.mark.configured(response_set(s), self.response),
            Meaning::Neither => self.mark.configured(None, self.response),
            Meaning::Ppu => None,
            _ => self.response,
        }
    }

    // The role of who has heard a command.
    pub fn heard(self, m: Meaning) -> Role
        ensures { result ≡ role_heard m self }
    {
        self.addressed(m)
            .with_mark(self.mark_after(m))
            .with_response(self.response_after(m))
    }
}

// What hearing a command is answered with.
pub fn hear_event(m: Meaning, listen: bool) -> Event
    ensures { result ≡ hear_event m listen }
{
    match m {
        Meaning::Sdc if listen => Event::Clear,
        Meaning::Get if listen => Event::Trigger,
        Meaning::Dcl => Event::Clear,
        _ => Event::Heard,
    }
}

// Does control go on when this command ends?
pub fn passes_control(m: Meaning) -> bool
    ensures { result ≡ passes_control m }
{
    matches!(m, Meaning::Tct)
}
