// What the host's calls do to their own party, once they are accepted.
#![tactic(auto)]

ghost use Rattle.std.specs.Prelude.{◌≡◌};
ghost use Rattle.host_calls.specs.HostCalls.{write, read, requested, poll_register, second_request, listen_acceptor};
ghost use Rattle.host_calls.specs.HostCalls.{listen_only, talk_only, controlled, drop_held, reset_acceptor, reset};
ghost use Rattle.host_calls.specs.HostCalls.{joining, clear, tell, marked_end, data_out, mark_end, own_status};
ghost use Rattle.host_calls.specs.HostCalls.{parallel_poll};

use effect::{After, Outcome, Said, View};
use event::Event;
use offer::Byte;
use parties::Lines;
use party::{Acceptor, Control, Party};
use service::Request;

pub fn write(byte: Byte, v: View) -> Outcome
    ensures { result ≡ write byte.value byte.end v }
{
    Outcome::quiet(0, v.party.with_held(Some(byte)))
}

// The party with the mark for its next byte on or off.
fn marked_end(on: bool, p: Party) -> Party
    ensures { result ≡ marked_end on p }
{
    p.with_latches(p.latches.with_feoi(on))
}

// The byte with END from the mark, which is used up.
pub fn data_out(value: u8, v: View) -> Outcome
    ensures { result ≡ data_out value v }
{
    let end = v.party.latches.feoi;
    let party = v.party.with_held(Some(Byte { value, end }));
    Outcome::quiet(0, marked_end(false, party))
}

pub fn mark_end(v: View) -> Outcome
    ensures { result ≡ mark_end v }
{
    Outcome::quiet(0, marked_end(true, v.party))
}

// The own status, for parallel polls.
pub fn own_status(on: bool, v: View) -> Outcome
    ensures { result ≡ own_status on v }
{
    let latches = v.party.latches.with_ist(on);
    Outcome::quiet(0, v.party.with_latches(latches))
}

pub fn read(v: View) -> Outcome
    ensures { result ≡ read v }
{
    let quiet = Outcome::quiet(0, v.party.with_input(None));
    match v.party.input {
        None => quiet,
        Some(byte) => Outcome {
            said: Said::say(Event::Read, byte.value, byte.end, 0),
            ..quiet
        },
    }
}

// A party that asks for service by this request.
fn requested(request: Request, p: Party) -> Outcome
    ensures { result ≡ requested request p }
{
    Outcome::quiet(0, p.with_request(request))
}

pub fn poll_register(value: u8, v: View) -> Outcome
    ensures { result ≡ poll_register value v }
{
    requested(v.party.request.with_saved(value), v.party)
}

pub fn second_request(on: bool, v: View) -> Outcome
    ensures { result ≡ second_request on v }
{
    requested(v.party.request.with_rsv2(on), v.party)
}

// The acceptor of who comes to hear: who joins while a byte stands waits for its end.
fn joining(dav: bool) -> Acceptor
    ensures { result ≡ joining dav }
{
    if dav { Acceptor::Awns } else { Acceptor::Anrs }
}

// The acceptor of who is told to listen or not.
fn listen_acceptor(on: bool, was: bool, l: Lines, a: Acceptor) -> Acceptor
    ensures { result ≡ listen_acceptor on was l a }
{
    if l.atn || (on && was) {
        a
    } else if on {
        joining(l.dav)
    } else {
        Acceptor::Aids
    }
}

pub fn listen_only(on: bool, v: View) -> Outcome
    ensures { result ≡ listen_only on v }
{
    let p = v.party;
    let party = Party {
        role: p.role.with_flags(p.role.talk, on),
        acceptor: listen_acceptor(on, p.role.listen, v.lines, p.acceptor),
        ..p
    };
    Outcome::quiet(0, party)
}

pub fn talk_only(on: bool, v: View) -> Outcome
    ensures { result ≡ talk_only on v }
{
    let role = v.party.role;
    Outcome::quiet(0, v.party.with_role(role.with_flags(on, role.listen)))
}

// Take control, or go to standby.
pub fn controlled(control: Control, v: View) -> Outcome
    ensures { result ≡ controlled control v }
{
    let party = v.party.change_control(control);
    Outcome::quiet(v.party.held_bytes(), party).then(After::Attend)
}

pub fn drop_held(v: View) -> Outcome
    ensures { result ≡ drop_held v }
{
    Outcome::quiet(v.party.held_bytes(), v.party.with_held(None))
}

fn reset_acceptor(l: Lines) -> Acceptor
    ensures { result ≡ reset_acceptor l }
{
    if l.atn {
        joining(l.dav)
    } else {
        Acceptor::Aids
    }
}

// Attention follows the reset of an active party.
pub fn reset(v: View) -> Outcome
    ensures { result ≡ reset v }
{
    let dropped = v.party.held_bytes();
    let wiped = v.party.wiped();
    if v.party.is_active() {
        Outcome::quiet(dropped, wiped).then(After::Attend)
    } else {
        Outcome::quiet(dropped, wiped.with_acceptor(reset_acceptor(v.lines)))
    }
}

// Interface clear. What it drops is counted when every party is cleared.
pub fn clear(v: View) -> Outcome
    ensures { result ≡ clear v }
{
    let active = v.party.cleared().change_control(Control::Active);
    Outcome::quiet(0, active).then(After::Clear)
}

// The lines are told.
pub fn tell(v: View) -> Outcome
    ensures { result ≡ tell v }
{
    Outcome {
        said: Said::say(Event::Lines, v.lines.byte(), false, 0),
        after: After::Settle,
        party: v.party,
    }
}

// A parallel poll. Its lines are told when every party has answered.
pub fn parallel_poll(v: View) -> Outcome
    ensures { result ≡ parallel_poll v }
{
    Outcome::quiet(0, v.party).then(After::Poll)
}
