// What C and Rust programs call, on a bus that they keep as rows of bytes. What they link is meskvorn_c.
#![tactic(auto)]

ghost use Rattle.std.specs.Prelude.{◌≡◌};
ghost use Rattle.meskvorn.specs.Host.{count_of, RanTo};

use run::NoRoom;

pub mod builds;
pub mod calls;
pub mod drivers;
pub mod host;
pub mod packing;
pub mod turns;

// The number of bytes written; the largest number where there was no room, which C has no Result to say by.
fn count_of(r: Result<usize, NoRoom>) -> usize
    ensures { result ≡ count_of r }
{
    match r {
        Ok(n) => n,
        Err(NoRoom) => usize::MAX,
    }
}

// Runs a script and writes its text at the start of out, if that has 34 bytes for each line. Gives the number of bytes
// written.
pub fn meskvorn_run(script: &[u8], out: &mut [u8]) -> usize
    ensures { RanTo script.now out.old out.new result }
{
    count_of(run::run(script, out))
}
