// What a record or a host asks for by numbers, and its answer.
#![tactic(auto)]

ghost use Rattle.std.specs.Prelude.{◌≡◌, ◌≤◌};
ghost use Rattle.orders.specs.Orders.{build_from, order_of, obey, answer_to_record};

use bus::{Answer, Bus};
use effect::{Act, Call, Refusal};
use party::Place;
use reader::Record;

// What a record asks for.
#[derive(Clone, Copy)]
pub enum Order {
    // The system party, the number of parties and the first address.
    Build(Place, u8, u8),
    Call(Call),
}

// By the numbers that the operations have in a script; a function with the name of its definition, and no TryFrom.
#[tactic(auto, unfolding(crate::specs::Orders::order_of))]
pub fn order_of(r: Record) -> Result<Order, Refusal>
    ensures { result ≡ order_of r }
{
    let party = Place(r.party);
    match r.op {
        0 => Ok(Order::Build(party, r.value, r.extra)),
        1 => Ok(Order::Call(Call::Of(party, Act::Step))),
        2 => Ok(Order::Call(Call::Of(party, Act::Write(r.value, r.extra)))),
        3 => Ok(Order::Call(Call::Of(party, Act::Read))),
        4 => Ok(Order::Call(Call::Of(party, Act::PollRegister(r.value)))),
        5 => Ok(Order::Call(Call::Of(party, Act::ListenOnly(r.value)))),
        6 => Ok(Order::Call(Call::Of(party, Act::TalkOnly(r.value)))),
        7 => Ok(Order::Call(Call::Of(party, Act::TakeControl))),
        8 => Ok(Order::Call(Call::Of(party, Act::GoToStandby))),
        9 => Ok(Order::Call(Call::Of(party, Act::InterfaceClear))),
        10 => Ok(Order::Call(Call::Of(party, Act::Reset))),
        11 => Ok(Order::Call(Call::Of(party, Act::Drop))),
        12 => Ok(Order::Call(Call::Lines)),
        13 => Ok(Order::Call(Call::Of(party, Act::SecondRequest(r.value)))),
        _ => Err(Refusal::BadValue),
    }
}

// More than fifteen parties, or a first address over 30, make no bus whatever else the record has: no more than a build
// of no addresses.
fn build_from(system: Place, n: u8, first: u8) -> Answer
    ensures { result ≡ build_from system n first }
{
    if 15 < n || 30 < first {
        return Bus::build(b"", system);
    }
    let mut all = [0; 15];
    for (i, address) in all.iter_mut().enumerate() {
        *address = first + i as u8;
    }
    Bus::build(&all[..n as usize], system)
}

#[tactic(auto, unfolding(crate::specs::Orders::obey))]
pub fn obey(b: Bus, o: Order) -> Answer
    ensures { result ≡ obey b o }
{
    match o {
        Order::Build(system, n, first) => build_from(system, n, first),
        Order::Call(c) => b.call(c),
    }
}

// The answer to a record.
#[tactic(auto, unfolding(crate::specs::Orders::answer_to_record))]
pub fn answer_to_record(b: Bus, r: Record) -> Answer
    ensures { result ≡ answer_to_record b r }
{
    match order_of(r) {
        Ok(order) => obey(b, order),
        Err(refusal) => b.refuse(refusal),
    }
}
