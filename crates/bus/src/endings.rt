// How a call ends: refused; or its changes made, with attention where it is due, and every party settled.
ghost use Rattle.std.specs.Prelude.{◌≡◌};
ghost use Rattle.bus.specs.Record.{silent, refuse, accept};
ghost use Rattle.bus.specs.Settling.{answered, attend, settle, pass, clear_all, poll, follow};

use crate::{Answer, Bus};
use effect::stands::{is_left, sender_slot};
use effect::{After, Effect, Refusal, Said, Standing, Verdict};
use event::Event;
use parties::every::{Attend, Clear, Settle, at, change_all, clear_drops, with_party};
use parties::polling::poll_byte;
use parties::sweeping::{has_driver, sweep_of};
use party::{Control, Party, Place};

impl Bus {
    // Event none, and the bus as it is.
    fn silent(self, verdict: Verdict) -> Answer
        ensures { result ≡ silent verdict self }
    {
        Answer {
            verdict,
            event: Event::None,
            byte: 0,
            end: false,
            dropped: 0,
            broken: 0,
            bus: self,
        }
    }

    pub fn refuse(self, r: Refusal) -> Answer
        ensures { result ≡ refuse r self }
    {
        self.silent(Err(r))
    }

    // Accepted, with nothing to say.
    pub fn accept(self) -> Answer
        ensures { result ≡ accept self }
    {
        self.silent(Ok(()))
    }

    // The answer of an accepted call that leaves this bus; `off` says that a byte was broken off.
    fn answered(self, said: Said, off: bool) -> Answer
        ensures { result ≡ answered off said self }
    {
        Answer {
            verdict: Ok(()),
            event: said.event,
            byte: said.byte,
            end: said.end,
            dropped: said.dropped,
            broken: off as u8,
            bus: self,
        }
    }

    // The effect on party i is made, and every party settles. The loop stands twice so that ATN is tested once.
    fn settle(self, atn: bool, i: Place, e: Effect) -> Answer
        ensures { result ≡ settle atn self i.0 e }
    {
        let mut parties = with_party(self.parties, i, e.party);
        let sender = parties[sender_slot(e.standing)];
        let off = is_left(sender.is_source(atn), e.standing);
        if atn {
            change_all(&mut parties, self.count, Settle(true));
        } else {
            change_all(&mut parties, self.count, Settle(false));
        }
        let standing = if off { None } else { e.standing };
        let bus = Bus {
            parties,
            standing,
            ..self
        };
        bus.answered(e.said, off)
    }

    // Attention: a standing byte is broken off, and every party heeds ATN as it then is, and settles.
    fn attend(self, said: Said, ps: [Party; 15], st: Option<Standing>) -> Answer
        ensures { result ≡ attend self said ps st }
    {
        let atn = has_driver(sweep_of(ps, self.count).atn);
        let mut parties = ps;
        change_all(&mut parties, self.count, Attend(atn));
        let bus = Bus {
            parties,
            standing: None,
            ..self
        };
        bus.answered(said, st.is_some())
    }

    // Control goes from party i, whose TCT has ended, to party j.
    fn pass(self, i: Place, e: Effect, j: Place) -> Answer
        ensures { result ≡ pass self i.0 e j.0 }
    {
        let next = at(self.parties, j);
        let dropped = e.party.held_bytes() + next.held_bytes();
        let told = Said::say(Event::Passed, e.said.byte, e.said.end, dropped);
        let left = with_party(self.parties, i, e.party.change_control(Control::Idle));
        let handed = with_party(left, j, next.change_control(Control::Active));
        self.attend(told, handed, e.standing)
    }

    // Every party is cleared; the system party, i, is as its effect has it.
    fn clear_all(self, i: Place, e: Effect) -> Answer
        ensures { result ≡ clear_all self i.0 e }
    {
        let chief = at(self.parties, i).cleared();
        let dropped = clear_drops(self.parties, self.count) + chief.held_bytes();
        let told = Said::say(Event::None, 0, false, dropped);
        let mut all = self.parties;
        change_all(&mut all, self.count, Clear);
        self.attend(told, with_party(all, i, e.party), e.standing)
    }

    // The lines of a parallel poll by party i are told, as the call found the parties, and every party settles.
    fn poll(self, atn: bool, i: Place, e: Effect) -> Answer
        ensures { result ≡ poll atn self i.0 e }
    {
        let lines = poll_byte(self.parties, self.count);
        let told = Said::say(Event::Lines, lines, false, 0);
        self.settle(atn, i, Effect::does(told, e.party, e.standing))
    }

    // What follows on the effect of a call of party i.
    pub fn follow(self, atn: bool, i: Place, e: Effect) -> Answer
        ensures { result ≡ follow atn self i.0 e }
    {
        match e.after {
            After::Settle => self.settle(atn, i, e),
            After::Pass(j) => self.pass(i, e, j),
            After::Attend => self.attend(e.said, with_party(self.parties, i, e.party), e.standing),
            After::Clear => self.clear_all(i, e),
            After::Poll => self.poll(atn, i, e),
        }
    }
}
