// The acceptor step.
#![tactic(auto)]

ghost use Rattle.std.specs.Prelude.{◌≡◌};
ghost use Rattle.acceptor_step.specs.AcceptorStep.{fills, hears, takes, readies, acceptor_step};

use effect::{Effect, Said, Standing, View};
use event::Event;
use message::meaning_of;
use offer::Byte;
use party::Acceptor;
use role::hearing::hear_event;

// Data is taken into data-in.
fn fills(byte: Byte, v: View) -> Effect
    ensures { result ≡ fills byte.value byte.end v }
{
    let party = v.party.with_input(Some(byte)).with_acceptor(Acceptor::Acds);
    Effect::does(
        Said::say(Event::Took, byte.value, byte.end, 0),
        party,
        v.standing,
    )
}

// A command is taken by hearing it.
fn hears(byte: Byte, v: View) -> Effect
    ensures { result ≡ hears byte.value byte.end v }
{
    let event = hear_event(meaning_of(byte.value), v.party.role.listen);
    let party = v.party.heard(byte.value).with_acceptor(Acceptor::Acds);
    Effect::does(Said::say(event, byte.value, byte.end, 0), party, v.standing)
}

// DAV is true: what stands is taken.
fn takes(st: Option<Standing>, v: View) -> Effect
    ensures { result ≡ takes st v }
{
    match st {
        None => v.stay(),
        Some(Standing { value, end, .. }) if v.lines.atn => hears(Byte { value, end }, v),
        Some(Standing { value, end, .. }) => fills(Byte { value, end }, v),
    }
}

// A party in ANRS is ready for a command, and for data if data-in is empty.
fn readies(full: bool, v: View) -> Effect
    ensures { result ≡ readies full v }
{
    if v.lines.atn || !full {
        v.moved(v.party.with_acceptor(Acceptor::Acrs))
    } else {
        v.stay()
    }
}

pub fn acceptor_step(v: View) -> Effect
    ensures { result ≡ acceptor_step v }
{
    let p = v.party;
    match p.acceptor {
        Acceptor::Aids => v.stay(),
        Acceptor::Anrs => readies(p.input.is_some(), v),
        Acceptor::Acrs if v.lines.dav => takes(v.standing, v),
        Acceptor::Acrs => v.stay(),
        Acceptor::Acds => v.moved(p.with_acceptor(Acceptor::Awns)),
        Acceptor::Awns if v.lines.dav => v.stay(),
        Acceptor::Awns => v.moved(p.with_acceptor(Acceptor::Anrs)),
    }
}
