// A call, its refusal, what stands on the bus, and what a call does to its own party and to that.
#![tactic(auto)]

use event::Event;
use offer::Kind;
use parties::Lines;
use party::{Party, Place};

pub mod calls;
pub mod effects;
pub mod stands;

// Document 01's standing byte: its sender, kind, value and END. It stands exactly while its sender is in STRS.
#[derive(Clone, Copy)]
pub struct Standing {
    pub sender: Place,
    pub kind: Kind,
    pub value: u8,
    pub end: bool,
}

// Why a call was refused, with document 01's number for each.
#[derive(Clone, Copy)]
pub enum Refusal {
    NoParty = 1,
    BadBuild,
    BadValue,
    Role,
    Attention,
    Talker,
    Standing,
    Full,
    Empty,
    Record,
    NoReg,
}

// Whether a call was accepted.
pub type Verdict = Result<(), Refusal>;

// What a host may ask of a party, with its arguments as they come: a byte, a switch or an END. A number that is no
// switch is refused with 3 only where the place has a party, so it stays a number up to `judge`.
#[derive(Clone, Copy)]
pub enum Act {
    Step,
    Write(u8, u8),
    Read,
    PollRegister(u8),
    ListenOnly(u8),
    TalkOnly(u8),
    TakeControl,
    GoToStandby,
    InterfaceClear,
    Reset,
    Drop,
    SecondRequest(u8),
    // What the chip's registers ask for beside these: the byte with END from the mark, the mark for the next one, the
    // lines as its party reads them, what is accepted and does nothing, and what is not carried: that is refused with
    // 11, and with 1 before that, so it is an act like the others.
    DataOut(u8),
    MarkEnd,
    BusStatus,
    DoNothing,
    NoRegister,
    // The party's own status, and the parallel poll that asks for it.
    OwnStatus(u8),
    ParallelPoll,
}

// The operations other than build: those of a party, and those of the whole bus.
#[derive(Clone, Copy)]
pub enum Call {
    Of(Place, Act),
    Lines,
    Drivers,
}

// What a call sees of the bus as it comes. Where its place has no party, `party` is some party: a call that names the
// place is refused before it is read, and lines and drivers hand it back as it was. So an Option is no plainer.
#[derive(Clone, Copy)]
pub struct View {
    pub place: Place,
    // Has the place a party, and is that the system party?
    pub inside: bool,
    pub chief: bool,
    // The first other party that talks.
    pub talker: Option<Place>,
    pub lines: Lines,
    pub standing: Option<Standing>,
    pub party: Party,
}

// What an answer says beside its refusal, its broken count and the bus.
#[derive(Clone, Copy)]
pub struct Said {
    pub event: Event,
    pub byte: u8,
    pub end: bool,
    pub dropped: u8,
}

// What follows on a call's own changes: settling alone; control that goes on to a party; attention; an interface clear;
// a parallel poll, whose lines are told of all parties.
#[derive(Clone, Copy)]
pub enum After {
    Settle,
    Pass(Place),
    Attend,
    Clear,
    Poll,
}

// What a host call does: what it says, what follows, and its party. None of them changes what stands.
#[derive(Clone, Copy)]
pub struct Outcome {
    pub said: Said,
    pub after: After,
    pub party: Party,
}

// What any call does to its own party and to what stands, and what is to follow.
#[derive(Clone, Copy)]
pub struct Effect {
    pub said: Said,
    pub after: After,
    pub party: Party,
    pub standing: Option<Standing>,
}
