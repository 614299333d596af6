// Reads a bus script from standard input and writes a line for each record.
#![tactic(auto)]

ghost use Rattle.std.specs.Prelude.{◌≡◌, List, ℕ, ◌<◌, length, take};
ghost use Rattle.io.specs.Counts.{IsPrefixLen};
ghost use Rattle.run.specs.Run.{Printed};

use run::{LONGEST, ROOM};

// The descriptors of standard input and output.
const STDIN: i32 = 0;

const STDOUT: i32 = 1;

// One byte more than a script may have.
const READ: usize = LONGEST + 1;

// The text of an input of any length, of which the n bytes that were read are the front as far as the buffer goes.
fn run_front(read: &[u8], n: usize, out: &mut [u8; ROOM]) -> usize
    requires room { 65532 < length read.now }
    requires front { IsPrefixLen n read.now }
    ensures printed { (input : List ℕ) → take n read.now ≡ take (length read.now) input
        → Printed input out.old out.new result }
    ensures within { IsPrefixLen result out.new }
{
    run::run_whole(&read[..n], out)
}

fn main() {
    let mut read = [0; READ];
    let mut out = [0; ROOM];
    let n = io::read_full(STDIN, &mut read);
    let k = run_front(&read, n, &mut out);
    io::write_all(STDOUT, &out[..k]);
}
