// What one party drives: ATN, DAV, NRFD, NDAC, SRQ; and on which line it answers a parallel poll.
ghost use Rattle.std.specs.Prelude.{◌≡◌};
ghost use Rattle.party.specs.Driving.{is_active, drives_dav, drives_nrfd, drives_ndac, drives_srq};
ghost use Rattle.party.specs.Driving.{answers_poll};

use crate::{Acceptor, Control, Party, Source};
use role::configuring::answers_on;
use service::Service;

impl Party {
    // An active party drives ATN.
    pub fn is_active(self) -> bool
        ensures { result ≡ is_active self }
    {
        matches!(self.control, Control::Active)
    }

    pub fn drives_dav(self) -> bool
        ensures { result ≡ drives_dav self }
    {
        matches!(self.source, Source::Strs)
    }

    pub fn drives_nrfd(self) -> bool
        ensures { result ≡ drives_nrfd self }
    {
        matches!(
            self.acceptor,
            Acceptor::Anrs | Acceptor::Acds | Acceptor::Awns
        )
    }

    pub fn drives_ndac(self) -> bool
        ensures { result ≡ drives_ndac self }
    {
        matches!(
            self.acceptor,
            Acceptor::Anrs | Acceptor::Acrs | Acceptor::Acds
        )
    }

    pub fn drives_srq(self) -> bool
        ensures { result ≡ drives_srq self }
    {
        matches!(self.request.service, Service::Srqs)
    }

    pub fn answers_poll(self, line: u8) -> bool
        ensures { result ≡ answers_poll line self }
    {
        answers_on(self.role.response, line, self.latches.ist)
    }
}
