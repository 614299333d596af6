// Document 01's example script through the calls: a talker sends one byte to a listener. A line is printed for each
// answer.
#![tactic(auto)]

use bus::{Answer, Bus};
use party::Place;
use text::put_line;

// The descriptor of standard output.
const STDOUT: i32 = 1;

// The line of an answer; the bus after it.
fn show(n: usize, a: Answer) -> Bus {
    let mut line = [0u8; 34];
    let end = put_line(n, a, &mut line, 0);
    io::write_all(STDOUT, &line[..end]);
    a.bus
}

fn main() {
    let addresses = [5u8, 6];
    let talker = Place(0);
    let listener = Place(1);
    let b = show(1, Bus::build(&addresses, talker));
    let b = show(2, b.talk_only(talker, 1));
    let b = show(3, b.listen_only(listener, 1));
    let b = show(4, b.write(talker, 65, 1));
    let b = show(5, b.step(talker));
    let b = show(6, b.step(listener));
    let b = show(7, b.step(talker));
    let b = show(8, b.step(listener));
    let b = show(9, b.step(talker));
    let b = show(10, b.step(listener));
    let b = show(11, b.step(talker));
    show(12, b.read(listener));
}
