// The request for service: the poll register, the second request bit and the service state; how it settles, and what a
// status byte leaves of it.
#![tactic(auto)]

ghost use Rattle.std.specs.Prelude.{◌≡◌, ◌≤◌};
ghost use Rattle.service.specs.Service.{aprs_bit, status, service_settled, live_settled, request_settled, with_saved};
ghost use Rattle.service.specs.Service.{with_rsv2, rsv2_kept, reported};

// The service request.
#[derive(Clone, Copy)]
pub enum Service {
    Nprs,
    Srqs,
    Aprs,
}

// The poll register, live and saved, the second request bit, and the service state.
#[derive(Clone, Copy)]
pub struct Request {
    pub live: u8,
    pub saved: u8,
    // Document 02, Q-5: the chip's rsv2, which is cleared when a status byte has answered it.
    pub rsv2: bool,
    pub service: Service,
}

impl Service {
    fn aprs_bit(self) -> u8
        ensures { (result ≡ aprs_bit self) × (result ≤ 64) }
    {
        match self {
            Service::Nprs | Service::Srqs => 0,
            Service::Aprs => 64,
        }
    }

    // What is left of the second request bit once a status byte is put in this state.
    fn rsv2_kept(self, rsv2: bool) -> bool
        ensures { result ≡ rsv2_kept self rsv2 }
    {
        !matches!(self, Service::Aprs) && rsv2
    }

    fn settled(self, rsv: bool, polled: bool) -> Service
        ensures { result ≡ service_settled self rsv polled }
    {
        match self {
            Service::Nprs if rsv && !polled => Service::Srqs,
            Service::Srqs if polled => Service::Aprs,
            Service::Srqs if rsv => Service::Srqs,
            Service::Aprs if rsv || polled => Service::Aprs,
            _ => Service::Nprs,
        }
    }
}

impl Request {
    pub const IDLE: Request = Request {
        live: 0,
        saved: 0,
        rsv2: false,
        service: Service::Nprs,
    };

    // The status byte.
    pub fn status(self) -> u8
        ensures { result ≡ status self }
    {
        self.live / 128 * 128 + self.live % 64 + self.service.aprs_bit()
    }

    // Unless polled, live becomes saved.
    fn live_settled(self, polled: bool) -> u8
        ensures { result ≡ live_settled polled self }
    {
        if polled { self.live } else { self.saved }
    }

    // Then bit 64 of live, or the second request bit, moves the service.
    pub fn settled(self, polled: bool) -> Request
        ensures { result ≡ request_settled polled self }
    {
        let live = self.live_settled(polled);
        let rsv = live / 64 % 2 == 1 || self.rsv2;
        Request {
            live,
            service: self.service.settled(rsv, polled),
            ..self
        }
    }

    // The poll register is written.
    pub fn with_saved(self, saved: u8) -> Request
        ensures { result ≡ with_saved saved self }
    {
        Request { saved, ..self }
    }

    pub fn with_rsv2(self, rsv2: bool) -> Request
        ensures { result ≡ with_rsv2 rsv2 self }
    {
        Request { rsv2, ..self }
    }

    // The request once its status byte is put: in APRS it has been answered.
    pub fn reported(self) -> Request
        ensures { result ≡ reported self }
    {
        self.with_rsv2(self.service.rsv2_kept(self.rsv2))
    }
}
