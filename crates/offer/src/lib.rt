// A byte on offer: its register, its kind, and what putting it leaves.
#![tactic(auto)]

ghost use Rattle.std.specs.Prelude.{◌≡◌};
ghost use Rattle.offer.specs.Offer.{kind_of, end_of, put_event, spent};

use event::Event;

// A byte with its END, as the held register and data-in have one or none.
#[derive(Clone, Copy)]
pub struct Byte {
    pub value: u8,
    pub end: bool,
}

// The kind of a byte that is put up.
#[derive(Clone, Copy)]
pub enum Kind {
    Command,
    Data,
    Status,
}

impl Kind {
    // The kind of what a source puts up.
    pub fn of(active: bool, polled: bool) -> Kind
        ensures { result ≡ kind_of active polled }
    {
        match (active, polled) {
            (true, _) => Kind::Command,
            (false, true) => Kind::Status,
            (false, false) => Kind::Data,
        }
    }

    // The END that a byte of this kind carries.
    pub fn end(self, end: bool) -> bool
        ensures { result ≡ end_of self end }
    {
        matches!(self, Kind::Data) && end
    }

    pub fn put_event(self) -> Event
        ensures { result ≡ put_event self }
    {
        match self {
            Kind::Command => Event::Cmd,
            Kind::Data => Event::Data,
            Kind::Status => Event::Stat,
        }
    }

    // What the held register keeps once a byte of this kind has been put.
    pub fn spent(self, held: Option<Byte>) -> Option<Byte>
        ensures { result ≡ spent self held }
    {
        match self {
            Kind::Command | Kind::Data => None,
            Kind::Status => held,
        }
    }
}
