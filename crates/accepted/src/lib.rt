// What an accepted call does to its party.
#![tactic(auto)]

ghost use Rattle.std.specs.Prelude.{◌≡◌};
ghost use Rattle.accepted.specs.Accepted.{step, acted, effect_of};

use acceptor_step::acceptor_step;
use effect::calls::is_on;
use effect::{Act, Call, Effect, View};
use offer::Byte;
use party::Control;
use source_step::source_step;

// A source takes the source step, any other party the acceptor step.
fn step(v: View) -> Effect
    ensures { result ≡ step v }
{
    if v.party.is_source(v.lines.atn) {
        source_step(v)
    } else {
        acceptor_step(v)
    }
}

// The effect of an accepted act.
fn acted(a: Act, v: View) -> Effect
    ensures { result ≡ acted v a }
{
    let outcome = match a {
        Act::Step => return step(v),
        // The second is never accepted.
        Act::DoNothing | Act::NoRegister => return v.stay(),
        Act::Write(value, end) => {
            let end = is_on(end);
            host_calls::write(Byte { value, end }, v)
        }
        Act::Read => host_calls::read(v),
        Act::PollRegister(value) => host_calls::poll_register(value, v),
        Act::ListenOnly(on) => host_calls::listen_only(is_on(on), v),
        Act::TalkOnly(on) => host_calls::talk_only(is_on(on), v),
        Act::TakeControl => host_calls::controlled(Control::Active, v),
        Act::GoToStandby => host_calls::controlled(Control::Standby, v),
        Act::InterfaceClear => host_calls::clear(v),
        Act::Reset => host_calls::reset(v),
        Act::Drop => host_calls::drop_held(v),
        Act::SecondRequest(on) => host_calls::second_request(is_on(on), v),
        Act::DataOut(byte) => host_calls::data_out(byte, v),
        Act::MarkEnd => host_calls::mark_end(v),
        Act::BusStatus => host_calls::tell(v),
        Act::OwnStatus(on) => host_calls::own_status(is_on(on), v),
        Act::ParallelPoll => host_calls::parallel_poll(v),
    };
    outcome.with_standing(v.standing)
}

// The effect of an accepted call.
pub fn effect_of(c: Call, v: View) -> Effect
    ensures { result ≡ effect_of v c }
{
    match c {
        Call::Of(_, a) => acted(a, v),
        Call::Lines => host_calls::tell(v).with_standing(v.standing),
        Call::Drivers => v.stay(),
    }
}
