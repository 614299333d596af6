// The bus script: a reader that keeps the script and its place in it hands out records. What is written over the struct
// is thin, start, take, take_at and next; the work is in record_at and after_at.
#![tactic(auto)]

ghost use Rattle.std.specs.Prelude.{◌≡◌, length};
ghost use Rattle.std.specs.Iterator.{YieldsFirst, item_count};
ghost use Rattle.reader.specs.Record.{record_at, after_at, take_at};
ghost use Rattle.reader.specs.Handing.{rest};

#[derive(Clone, Copy)]
pub struct Reader<'a> {
    pub script: &'a [u8],
    pub at: usize,
}

#[derive(Clone, Copy)]
pub struct Record {
    pub op: u8,
    pub party: u8,
    pub value: u8,
    pub extra: u8,
}

// A wrong mark or a short tail.
#[derive(Clone, Copy)]
pub struct BadRecord;

// What a reader hands out, and its place after that.
#[derive(Clone, Copy)]
pub struct Taken {
    pub next: Option<Result<Record, BadRecord>>,
    pub at: usize,
}

// The work: the record at a place.
#[tactic(auto, unfolding(crate::specs::Record::record_at))]
fn record_at(script: &[u8], at: usize) -> Option<Result<Record, BadRecord>>
    ensures { result ≡ record_at script.now at }
{
    match script.get(at..)? {
        [] => None,
        &[0x47, 0x42, op, party, value, extra, ..] => Some(Ok(Record {
            op,
            party,
            value,
            extra,
        })),
        _ => Some(Err(BadRecord)),
    }
}

// The work: the place after what stands at a place. A record is 6 bytes; what is bad ends the script.
#[tactic(auto, unfolding(crate::specs::Record::after_at, crate::specs::Record::record_at))]
fn after_at(script: &[u8], at: usize) -> usize
    ensures { result ≡ after_at script.now at }
{
    match record_at(script, at) {
        Some(Ok(_)) => at + 6,
        _ => script.len(),
    }
}

// A reader at a place of a script.
pub fn start(script: &[u8], at: usize) -> Reader<'_>
    ensures { (result.script ≡ script.entry) × (result.at ≡ at) }
{
    Reader { script, at }
}

// Hands out the record at the reader's place, and moves the reader on.
pub fn take(r: &mut Reader<'_>) -> Option<Result<Record, BadRecord>>
    ensures { (result ≡ record_at r.old.script.now r.old.at)
        × ((r.new.script ≡ r.old.script)
        × (r.new.at ≡ after_at r.old.script.now r.old.at)) }
{
    let next = record_at(r.script, r.at);
    r.at = after_at(r.script, r.at);
    next
}

// What a reader at a place of a script hands out, and its place after that: for a caller that keeps the place alone.
pub fn take_at(script: &[u8], at: usize) -> Taken
    ensures { result ≡ take_at script.now at }
{
    let mut r = start(script, at);
    let next = take(&mut r);
    Taken { next, at: r.at }
}

// Hands out the records that are left, and then the end.
impl Iterator for Reader<'_> {
    type Item = Result<Record, BadRecord>;

    ghost next_gives = { YieldsFirst rest };

    ghost remaining = { item_count rest };

    fn next(&mut self) -> Option<Result<Record, BadRecord>> {
        take(self)
    }
}
