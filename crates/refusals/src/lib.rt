// Which refusal a call meets.
#![tactic(auto)]

ghost use Rattle.std.specs.Prelude.{◌≡◌, cond, Ok, Err};
ghost use Rattle.refusals.specs.Refusals.{is_inside, in_standby, listen_refusal, talk_refusal, active_refusal, own};
ghost use Rattle.refusals.specs.Refusals.{judge, write_refusal, of_switch};

use effect::calls::is_on;
use effect::stands::sends_command;
use effect::{Act, Call, Refusal, Verdict, View};
use party::{Control, Place};

// Has a place a party? There are fifteen places.
pub fn is_inside(p: Place, count: u8) -> bool
    ensures { result ≡ is_inside count p.0 }
{
    p.0 < 15 && p.0 < count
}

fn refused_if(test: bool, r: Refusal) -> Verdict
    ensures { result ≡ cond test (Err r) (Ok tt) }
{
    if test { Err(r) } else { Ok(()) }
}

// A switch or an END has to be 0 or 1.
fn of_switch(x: u8) -> Verdict
    ensures { result ≡ of_switch x (Ok tt) }
{
    refused_if(1 < x, Refusal::BadValue)
}

fn in_standby(control: Control) -> bool
    ensures { result ≡ in_standby control }
{
    matches!(control, Control::Standby)
}

fn write_refusal(v: View) -> Verdict
    ensures { result ≡ write_refusal v }
{
    refused_if(v.party.held.is_some(), Refusal::Full)
}

fn listen_refusal(on: bool, talk: bool) -> Verdict
    ensures { result ≡ listen_refusal on talk }
{
    refused_if(on && talk, Refusal::Role)
}

fn talk_refusal(on: bool, v: View) -> Verdict
    ensures { result ≡ talk_refusal on v }
{
    if !on {
        return Ok(());
    }
    refused_if(v.party.role.listen, Refusal::Role)?;
    refused_if(v.lines.atn, Refusal::Attention)?;
    refused_if(v.talker.is_some(), Refusal::Talker)
}

// What the active party alone may do, and not while its command stands.
fn active_refusal(active: bool, sends: bool) -> Verdict
    ensures { result ≡ active_refusal active sends }
{
    refused_if(!active, Refusal::Role)?;
    refused_if(sends, Refusal::Standing)
}

// What a call of a party that is there meets.
fn own(a: Act, v: View) -> Verdict
    ensures { result ≡ own v a }
{
    let p = v.party;
    let sends = sends_command(v.place, v.standing);
    match a {
        Act::Write(_, e) => {
            of_switch(e)?;
            write_refusal(v)
        }
        Act::DataOut(_) => write_refusal(v),
        Act::Read => refused_if(p.input.is_none(), Refusal::Empty),
        Act::ListenOnly(on) => {
            of_switch(on)?;
            listen_refusal(is_on(on), p.role.talk)
        }
        Act::TalkOnly(on) => {
            of_switch(on)?;
            talk_refusal(is_on(on), v)
        }
        Act::SecondRequest(on) | Act::OwnStatus(on) => of_switch(on),
        Act::TakeControl => refused_if(!in_standby(p.control), Refusal::Role),
        Act::GoToStandby | Act::ParallelPoll => active_refusal(p.is_active(), sends),
        Act::InterfaceClear => refused_if(!v.chief, Refusal::Role),
        Act::Reset => refused_if(sends, Refusal::Standing),
        Act::NoRegister => Err(Refusal::NoReg),
        Act::Step
        | Act::PollRegister(_)
        | Act::Drop
        | Act::MarkEnd
        | Act::BusStatus
        | Act::DoNothing => Ok(()),
    }
}

// The refusal that a call meets, if any. Lines and drivers name no party, and meet none.
pub fn judge(c: Call, v: View) -> Verdict
    ensures { result ≡ judge v c }
{
    match c {
        Call::Of(_, a) if v.inside => own(a, v),
        Call::Of(_, _) => Err(Refusal::NoParty),
        Call::Lines | Call::Drivers => Ok(()),
    }
}
