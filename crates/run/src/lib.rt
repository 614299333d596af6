// A whole script: each record on the bus, and the text of the answers.
#![tactic(auto)]

ghost use Rattle.std.specs.Prelude.{◌≡◌, ◌+◌, ◌*◌, ◌/◌, ◌≤◌, length};
ghost use Rattle.bus.specs.Record.{no_parties};
ghost use Rattle.reader.specs.Record.{records};
ghost use Rattle.text.specs.Text.{Wrote};
ghost use Rattle.run.specs.Run.{answer_to, text_from, text_of, line_count, Printed, RanAs};

use bus::{Answer, Bus};
use effect::Refusal;
use party::Place;
use reader::{BadRecord, Record};

// The most bytes that a script may have.
pub const LONGEST: usize = 65532;

// The most bytes of a line.
const LINE: usize = 34;

// That for each line that a script can have: a record is six bytes.
pub const ROOM: usize = LINE * (LONGEST / 6);

#[tactic(auto, unfolding(crate::specs::Run::answer_to))]
fn answer_to(b: Bus, next: Result<Record, BadRecord>) -> Answer
    ensures { result ≡ answer_to b next }
{
    match next {
        Ok(record) => orders::answer_to_record(b, record),
        Err(BadRecord) => b.refuse(Refusal::Record),
    }
}

// A line for each record, from the bus of no parties. A build makes it, since a bus written out as a constant is kept
// field by field.
fn run_all(script: &[u8], out: &mut [u8]) -> usize
    requires { 34 * ((length script.now + 5) / 6) ≤ length out.old }
    ensures { Wrote out.old 0 (text_from no_parties 1 (records script.now))
        out.new result }
{
    let mut bus = Bus::build(b"", Place(0)).bus;
    let mut place = 0;
    for (i, next) in reader::start(script, 0).enumerate() {
        let a = answer_to(bus, next);
        place = text::put_line(i + 1, a, out, place);
        bus = a.bus;
    }
    place
}

// The most lines that a script can have.
#[tactic(auto, unfolding(crate::specs::Run::line_count))]
fn line_count(script: &[u8]) -> usize
    ensures { result ≡ line_count script.now }
{
    if LONGEST < script.len() {
        return 1;
    }
    script.len().div_ceil(6)
}

// The text of a script, at the start of out.
fn put_text(script: &[u8], out: &mut [u8]) -> usize
    requires { 34 * line_count script.now ≤ length out.old }
    ensures { Wrote out.old 0 (text_of script.now) out.new result }
{
    if LONGEST < script.len() {
        let a = Bus::EMPTY.refuse(Refusal::Record);
        return text::put_line(0, a, out, 0);
    }
    run_all(script, out)
}

// The buffer has less than 34 bytes for each line that the script can have.
#[derive(Clone, Copy)]
pub struct NoRoom;

// Runs a script and writes its text at the start of out; the number of bytes written. A line has at most 34 bytes:
// where out has less than that for each line, and only there, it answers NoRoom and writes nothing.
pub fn run(script: &[u8], out: &mut [u8]) -> Result<usize, NoRoom>
    ensures { RanAs script.now out.old out.new result }
{
    if out.len() / LINE < line_count(script) {
        return Err(NoRoom);
    }
    Ok(put_text(script, out))
}

// The same where out has room for the text of any script: 34 bytes for each of 10,922 lines.
pub fn run_whole(script: &[u8], out: &mut [u8; ROOM]) -> usize
    ensures { Printed script.now out.old out.new result }
{
    put_text(script, out)
}
