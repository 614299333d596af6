// What an access to a register of the chip stands for.
#![tactic(auto)]

ghost use Rattle.std.specs.Prelude.{◌≡◌};
ghost use Rattle.registers.specs.Registers.{auxiliary_of, when_set, commanded, read_from, written_to, stands_for};

use effect::Act;
use effect::calls::is_on;

// An access by the offset of the register, and the value that is written.
#[derive(Clone, Copy)]
pub enum Access {
    Read(u8),
    Write(u8, u8),
}

// The chip's auxiliary commands that are carried, by its names for them.
#[derive(Clone, Copy)]
pub enum Auxiliary {
    Swrst,
    Nbaf,
    Feoi,
    Lon,
    Ton,
    Gts,
    Tca,
    Sic,
    Rsv2,
}

// By the chip's own codes; a function with the name of its definition, and no TryFrom.
#[tactic(auto, unfolding(crate::specs::Registers::auxiliary_of))]
fn auxiliary_of(code: u8) -> Option<Auxiliary>
    ensures { result ≡ auxiliary_of code }
{
    match code {
        0 => Some(Auxiliary::Swrst),
        5 => Some(Auxiliary::Nbaf),
        8 => Some(Auxiliary::Feoi),
        9 => Some(Auxiliary::Lon),
        10 => Some(Auxiliary::Ton),
        11 => Some(Auxiliary::Gts),
        12 => Some(Auxiliary::Tca),
        15 => Some(Auxiliary::Sic),
        24 => Some(Auxiliary::Rsv2),
        _ => None,
    }
}

// What acts when its command is set, and does nothing when it is cleared.
fn when_set(on: u8, act: Act) -> Act
    ensures { result ≡ when_set on act }
{
    if is_on(on) { act } else { Act::DoNothing }
}

// What a command asks for, with the set bit as its switch.
fn commanded(command: Auxiliary, on: u8) -> Act
    ensures { result ≡ commanded command on }
{
    match command {
        Auxiliary::Swrst => when_set(on, Act::Reset),
        Auxiliary::Nbaf => Act::Drop,
        Auxiliary::Feoi => Act::MarkEnd,
        Auxiliary::Lon => Act::ListenOnly(on),
        Auxiliary::Ton => Act::TalkOnly(on),
        Auxiliary::Gts => Act::GoToStandby,
        Auxiliary::Tca => Act::TakeControl,
        Auxiliary::Sic => when_set(on, Act::InterfaceClear),
        Auxiliary::Rsv2 => Act::SecondRequest(on),
    }
}

// By the offsets of the registers.
fn read_from(offset: u8) -> Act
    ensures { result ≡ read_from offset }
{
    match offset {
        3 => Act::BusStatus,
        7 => Act::Read,
        _ => Act::NoRegister,
    }
}

// By the offsets of the registers.
fn written_to(offset: u8, value: u8) -> Act
    ensures { result ≡ written_to offset value }
{
    match offset {
        3 => match auxiliary_of(value % 32) {
            Some(command) => commanded(command, value / 128),
            None => Act::NoRegister,
        },
        5 => Act::PollRegister(value),
        7 => Act::DataOut(value),
        _ => Act::NoRegister,
    }
}

impl Access {
    // The act that its party is asked for.
    pub fn stands_for(self) -> Act
        ensures { result ≡ stands_for self }
    {
        match self {
            Access::Read(offset) => read_from(offset),
            Access::Write(offset, value) => written_to(offset, value),
        }
    }
}
