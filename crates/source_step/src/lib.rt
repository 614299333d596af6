// The source step.
#![tactic(auto)]

ghost use Rattle.std.specs.Prelude.{◌≡◌};
ghost use Rattle.source_step.specs.Types.{Command};
ghost use Rattle.source_step.specs.SourceStep.{put, noacc, offering, ready, pass_to, ended_byte, ended, source_step};

use effect::{After, Effect, Said, Standing, View};
use event::Event;
use message::meaning_of;
use offer::{Byte, Kind};
use party::{Place, Source};
use role::hearing::passes_control;

// The byte is put up.
fn put(kind: Kind, byte: Byte, v: View) -> Effect
    ensures { result ≡ put kind byte.value byte.end v }
{
    let end = kind.end(byte.end);
    let standing = Standing {
        sender: v.place,
        kind,
        value: byte.value,
        end,
    };
    let said = Said::say(kind.put_event(), byte.value, end, 0);
    Effect::does(said, v.party.parted(kind), Some(standing))
}

// Nobody is there to accept the byte, which is kept.
fn noacc(kind: Kind, byte: Byte, v: View) -> Effect
    ensures { result ≡ noacc kind byte.value byte.end v }
{
    let said = Said::say(Event::Noacc, byte.value, kind.end(byte.end), 0);
    Effect::does(said, v.party, v.standing)
}

// A source in SGNS.
fn offering(full: bool, v: View) -> Effect
    ensures { result ≡ offering full v }
{
    if full {
        v.moved(v.party.with_source(Source::Sdys))
    } else {
        v.stay()
    }
}

// A source in SDYS.
fn ready(offer: Option<Byte>, kind: Kind, v: View) -> Effect
    ensures { result ≡ ready offer kind v }
{
    match offer {
        None => v.moved(v.party.with_source(Source::Sgns)),
        Some(_) if v.lines.nrfd => v.stay(),
        Some(byte) if v.lines.ndac => put(kind, byte, v),
        Some(byte) => noacc(kind, byte, v),
    }
}

// Who is in control once TCT has ended: the other talker, if there is one.
fn pass_to(passes: bool, talker: Option<Place>) -> After
    ensures { result ≡ pass_to passes talker }
{
    match talker {
        Some(j) if passes => After::Pass(j),
        _ => After::Settle,
    }
}

// A command has ended, and is heard by its own sender too.
fn command_ended(byte: Byte, v: View) -> Effect
    ensures { result ≡ ended_byte Command byte.value byte.end v }
{
    Effect {
        said: Said::say(Event::Ended, byte.value, byte.end, 0),
        after: pass_to(passes_control(meaning_of(byte.value)), v.talker),
        party: v.party.heard(byte.value).with_source(Source::Sgns),
        standing: None,
    }
}

// NDAC is false: what stands has ended.
fn ended(st: Option<Standing>, v: View) -> Effect
    ensures { result ≡ ended st v }
{
    let Some(
        Standing {
            kind,
            value,
            end,
            ..
        },
    ) = st
    else {
        return v.stay();
    };
    match kind {
        Kind::Command => command_ended(Byte { value, end }, v),
        Kind::Data | Kind::Status => {
            let said = Said::say(Event::Ended, value, end, 0);
            Effect::does(said, v.party.with_source(Source::Sgns), None)
        }
    }
}

pub fn source_step(v: View) -> Effect
    ensures { result ≡ source_step v }
{
    let p = v.party;
    let polled = p.is_polled(v.lines.atn);
    let offer = p.offer(polled);
    match p.source {
        Source::Sids => v.stay(),
        Source::Sgns => offering(offer.is_some(), v),
        Source::Sdys => ready(offer, Kind::of(p.is_active(), polled), v),
        Source::Strs if v.lines.ndac => v.stay(),
        Source::Strs => ended(v.standing, v),
    }
}
