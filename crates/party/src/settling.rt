// Attention and settling, of one party.
ghost use Rattle.std.specs.Prelude.{◌≡◌};
ghost use Rattle.party.specs.Settling.{acceptor_attended, attended, source_settled, settled};

use crate::{Acceptor, Control, Party, Source};

impl Acceptor {
    fn attended(atn: bool, control: Control, listen: bool) -> Acceptor
        ensures { result ≡ acceptor_attended atn control listen }
    {
        match control {
            Control::Active if atn => Acceptor::Aids,
            _ if atn || listen => Acceptor::Anrs,
            _ => Acceptor::Aids,
        }
    }
}

impl Source {
    fn settled(self, sends: bool) -> Source
        ensures { result ≡ source_settled sends self }
    {
        match self {
            _ if !sends => Source::Sids,
            Source::Sids => Source::Sgns,
            _ => self,
        }
    }
}

impl Party {
    // A party after attention, with ATN as it then is.
    pub fn attended(self, atn: bool) -> Party
        ensures { result ≡ attended atn self }
    {
        Party {
            role: self.role.with_mark(self.role.mark.without_address()),
            source: Source::Sids,
            acceptor: Acceptor::attended(atn, self.control, self.role.listen),
            ..self
        }
    }

    // A party after settling, with ATN as the call left it.
    pub fn settled(self, atn: bool) -> Party
        ensures { result ≡ settled atn self }
    {
        Party {
            source: self.source.settled(self.is_source(atn)),
            request: self.request.settled(self.is_polled(atn)),
            ..self
        }
    }
}
