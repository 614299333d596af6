// The bus call by call, by the numbers that the operations have in a script.
ghost use Rattle.std.specs.Prelude.{◌≡◌};
ghost use Rattle.meskvorn.specs.Host.{answer_by_number};

use bus::{Answer, Bus};
use effect::Refusal;
use reader::Record;

// Any operation other than build.
#[tactic(auto, unfolding(crate::specs::Host::answer_by_number))]
pub fn answer_by_number(b: Bus, op: u8, party: u8, value: u8, extra: u8) -> Answer
    ensures { result ≡ answer_by_number b op party value extra }
{
    if op == 0 {
        return b.refuse(Refusal::BadValue);
    }
    orders::answer_to_record(
        b,
        Record {
            op,
            party,
            value,
            extra,
        },
    )
}
