// The calls on a bus: each goes through the parties once, meets its refusal or has its effect, and hands the bus back
// in its answer. Each operation has a method under its own name, as the pages and the hosts name it.
ghost use Rattle.std.specs.Prelude.{◌≡◌};
ghost use Rattle.bus.specs.Machine.{call, accessed};
ghost use Rattle.bus.specs.Drivers.{drivers};

use crate::{Answer, Bus, Drivers};
use accepted::effect_of;
use effect::stands::{end_mask, has_end};
use effect::{Act, Call, View};
use parties::every::slot;
use parties::sweeping::sweep_of;
use party::Place;
use refusals::{is_inside, judge};
use registers::Access;

impl Bus {
    // Any operation other than build.
    pub fn call(self, c: Call) -> Answer
        ensures { result ≡ call self c }
    {
        let place = c.place();
        let at = slot(place);
        let scan = sweep_of(self.parties, self.count).told(at, has_end(self.standing));
        let v = View {
            place,
            inside: is_inside(place, self.count),
            chief: place == self.system,
            talker: scan.talker,
            lines: scan.lines,
            standing: self.standing,
            party: self.parties[at],
        };
        match judge(c, v) {
            Ok(()) => self.follow(scan.lines.atn, place, effect_of(c, v)),
            Err(r) => self.refuse(r),
        }
    }

    // Party p has its turn.
    pub fn step(self, p: Place) -> Answer
        ensures { result ≡ call self (Call.Of p Act.Step) }
    {
        self.call(Call::Of(p, Act::Step))
    }

    // A byte with its END (0 or 1) to be sent.
    pub fn write(self, p: Place, byte: u8, end: u8) -> Answer
        ensures { result ≡ call self (Call.Of p (Act.Write byte end)) }
    {
        self.call(Call::Of(p, Act::Write(byte, end)))
    }

    // The byte that was taken.
    pub fn read(self, p: Place) -> Answer
        ensures { result ≡ call self (Call.Of p Act.Read) }
    {
        self.call(Call::Of(p, Act::Read))
    }

    // The poll register; bit 64 asks for service.
    pub fn poll_register(self, p: Place, value: u8) -> Answer
        ensures { result ≡ call self (Call.Of p (Act.PollRegister value)) }
    {
        self.call(Call::Of(p, Act::PollRegister(value)))
    }

    pub fn listen_only(self, p: Place, on: u8) -> Answer
        ensures { result ≡ call self (Call.Of p (Act.ListenOnly on)) }
    {
        self.call(Call::Of(p, Act::ListenOnly(on)))
    }

    pub fn talk_only(self, p: Place, on: u8) -> Answer
        ensures { result ≡ call self (Call.Of p (Act.TalkOnly on)) }
    {
        self.call(Call::Of(p, Act::TalkOnly(on)))
    }

    pub fn take_control(self, p: Place) -> Answer
        ensures { result ≡ call self (Call.Of p Act.TakeControl) }
    {
        self.call(Call::Of(p, Act::TakeControl))
    }

    pub fn go_to_standby(self, p: Place) -> Answer
        ensures { result ≡ call self (Call.Of p Act.GoToStandby) }
    {
        self.call(Call::Of(p, Act::GoToStandby))
    }

    pub fn interface_clear(self, p: Place) -> Answer
        ensures { result ≡ call self (Call.Of p Act.InterfaceClear) }
    {
        self.call(Call::Of(p, Act::InterfaceClear))
    }

    pub fn reset(self, p: Place) -> Answer
        ensures { result ≡ call self (Call.Of p Act.Reset) }
    {
        self.call(Call::Of(p, Act::Reset))
    }

    // The held byte goes.
    pub fn drop_held(self, p: Place) -> Answer
        ensures { result ≡ call self (Call.Of p Act.Drop) }
    {
        self.call(Call::Of(p, Act::Drop))
    }

    pub fn lines(self) -> Answer
        ensures { result ≡ call self Call.Lines }
    {
        self.call(Call::Lines)
    }

    // The second request bit, which asks for service until a status byte has answered it.
    pub fn second_request(self, p: Place, on: u8) -> Answer
        ensures { result ≡ call self (Call.Of p (Act.SecondRequest on)) }
    {
        self.call(Call::Of(p, Act::SecondRequest(on)))
    }

    // The party's own status, 0 or 1, which parallel polls ask for.
    pub fn own_status(self, p: Place, on: u8) -> Answer
        ensures { result ≡ call self (Call.Of p (Act.OwnStatus on)) }
    {
        self.call(Call::Of(p, Act::OwnStatus(on)))
    }

    // A parallel poll by party p: its eight lines are the answer's byte.
    pub fn parallel_poll(self, p: Place) -> Answer
        ensures { result ≡ call self (Call.Of p Act.ParallelPoll) }
    {
        self.call(Call::Of(p, Act::ParallelPoll))
    }

    // What the chip's host reads of its party's register at an offset.
    pub fn read_register(self, p: Place, offset: u8) -> Answer
        ensures { result ≡ accessed self p (Access.Read offset) }
    {
        self.call(Call::Of(p, Access::Read(offset).stands_for()))
    }

    pub fn write_register(self, p: Place, offset: u8, value: u8) -> Answer
        ensures { result ≡ accessed self p (Access.Write offset value) }
    {
        self.call(Call::Of(p, Access::Write(offset, value).stands_for()))
    }

    // Who drives each line, and how many.
    pub fn drivers(self) -> Drivers
        ensures { result ≡ drivers self }
    {
        let sender = end_mask(self.count, self.standing);
        let masks = sweep_of(self.parties, self.count).masks_with(sender);
        Drivers {
            masks,
            counts: masks.counts(),
            answer: self.call(Call::Drivers),
        }
    }
}
