// What a source offers, and what putting and dropping it leave of the party.
ghost use Rattle.std.specs.Prelude.{◌≡◌};
ghost use Rattle.party.specs.Sending.{is_source, is_polled, offer, request_parted, parted};
ghost use Rattle.service.specs.Service.{status};

use crate::{Party, Source};
use offer::{Byte, Kind};
use service::Request;

// The request once a byte of this kind is put: a status byte reports it.
fn request_parted(kind: Kind, request: Request) -> Request
    ensures { result ≡ request_parted kind request }
{
    match kind {
        Kind::Command | Kind::Data => request,
        Kind::Status => request.reported(),
    }
}

impl Party {
    pub fn is_source(self, atn: bool) -> bool
        ensures { result ≡ is_source atn self }
    {
        self.is_active() || (!atn && self.role.talk)
    }

    pub fn is_polled(self, atn: bool) -> bool
        ensures { result ≡ is_polled atn self }
    {
        !atn && self.role.talk && self.role.poll
    }

    // The byte on offer.
    pub fn offer(self, polled: bool) -> Option<Byte>
        ensures { result ≡ offer polled self }
    {
        if polled {
            Some(Byte {
                value: self.request.status(),
                end: false,
            })
        } else {
            self.held
        }
    }

    // The sender once it has put its byte of this kind.
    pub fn parted(self, kind: Kind) -> Party
        ensures { result ≡ parted kind self }
    {
        Party {
            request: request_parted(kind, self.request),
            held: kind.spent(self.held),
            source: Source::Strs,
            ..self
        }
    }
}
