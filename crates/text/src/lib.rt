// The text of an answer: one line of busrun's output, written into a lent buffer.
#![tactic(auto)]

ghost use Rattle.std.specs.Prelude.{◌≡◌, ◌%◌};
ghost use Rattle.text.specs.Text.{Put, digit_of, hex_of, line_of};

use bus::Answer;
use effect::Verdict;
use effect::calls::verdict_number;
use event::Event;

// The last decimal digit of n.
fn digit_of(n: usize) -> u8
    ensures { result ≡ digit_of n }
{
    48 + (n % 10) as u8
}

// A digit below 16 in lower case.
fn hex_of(n: u8) -> u8
    ensures { result ≡ hex_of (n % 16) }
{
    let d = n % 16;
    if d < 10 { 48 + d } else { 87 + d }
}

// A lent buffer, and the place in it where the next text goes. Each method puts one text there and moves the place
// behind it: `Puts` in specs/Line.antt.
#[derive(Drop)]
struct Line<'a> {
    out: &'a mut [u8],
    at: usize,
}

impl Line<'_> {
    ghost use Rattle.text.specs.Text.{decimal_of, number_text, byte_text, head_text};
    ghost use Rattle.text.specs.Text.{event_text, counts_text};
    ghost use Rattle.text.specs.Line.{HasRoom, Puts};
    ghost use Rattle.event.specs.Words.{word_text};

    fn put(&mut self, text: &[u8])
        requires { HasRoom self.old text.now }
        ensures { Puts self.old text.now self.new }
    {
        for (i, byte) in text.iter().enumerate() {
            self.out[self.at + i] = *byte;
        }
        self.at += text.len();
    }

    // A number below 100,000 in decimal.
    #[tactic(auto, unfolding(crate::specs::Text::decimal_of))]
    fn put_decimal(&mut self, n: usize)
        requires { HasRoom self.old (decimal_of n) }
        ensures { Puts self.old (decimal_of n) self.new }
    {
        match n {
            ..10 => self.put(&[digit_of(n)]),
            10..100 => self.put(&[digit_of(n / 10), digit_of(n)]),
            100..1000 => self.put(&[digit_of(n / 100), digit_of(n / 10), digit_of(n)]),
            1000..10000 => self.put(&[
                digit_of(n / 1000),
                digit_of(n / 100),
                digit_of(n / 10),
                digit_of(n),
            ]),
            _ => self.put(&[
                digit_of(n / 10000),
                digit_of(n / 1000),
                digit_of(n / 100),
                digit_of(n / 10),
                digit_of(n),
            ]),
        }
    }

    // The number, and the byte that follows it.
    fn put_number(&mut self, n: usize, after: u8)
        requires { HasRoom self.old (number_text n after) }
        ensures { Puts self.old (number_text n after) self.new }
    {
        self.put_decimal(n);
        self.put(&[after]);
    }

    fn put_word(&mut self, e: Event)
        requires { HasRoom self.old (word_text e) }
        ensures { Puts self.old (word_text e) self.new }
    {
        self.put(e.word());
    }

    #[tactic(auto, unfolding(crate::specs::Text::byte_text))]
    fn put_byte(&mut self, has: bool, b: u8)
        requires { HasRoom self.old (byte_text has b) }
        ensures { Puts self.old (byte_text has b) self.new }
    {
        if has {
            self.put(&[hex_of(b / 16), hex_of(b), b' ']);
        } else {
            self.put(b"-- ");
        }
    }

    // The record's number and the refusal's.
    fn put_head(&mut self, n: usize, v: Verdict)
        requires { HasRoom self.old (head_text n v) }
        ensures { Puts self.old (head_text n v) self.new }
    {
        self.put_number(n, b' ');
        self.put_number(verdict_number(v) as usize, b' ');
    }

    // The event's word and the byte.
    fn put_event(&mut self, e: Event, b: u8)
        requires { HasRoom self.old (event_text e b) }
        ensures { Puts self.old (event_text e b) self.new }
    {
        self.put_word(e);
        self.put_byte(e.has_byte(), b);
    }

    // END and the counts, and the end of the line.
    fn put_counts(&mut self, end: bool, dropped: u8, broken: u8)
        requires { HasRoom self.old (counts_text end dropped broken) }
        ensures { Puts self.old (counts_text end dropped broken) self.new }
    {
        self.put_number(usize::from(end), b' ');
        self.put_number(dropped as usize, b' ');
        self.put_number(broken as usize, b'\n');
    }

    // The line of record n with answer a, where it fits.
    fn put_parts(&mut self, n: usize, a: Answer)
        requires { HasRoom self.old (line_of n a) }
        ensures { Puts self.old (line_of n a) self.new }
    {
        self.put_head(n, a.verdict);
        self.put_event(a.event, a.byte);
        self.put_counts(a.end, a.dropped, a.broken);
    }
}

// Writes the line of record n with answer a at a place and gives the place behind it. Without 34 bytes, which hold any
// line, it does nothing.
pub fn put_line(n: usize, a: Answer, out: &mut [u8], at: usize) -> usize
    ensures { Put out.old at (line_of n a) out.new result }
{
    if out.len().saturating_sub(at) < 34 {
        return at;
    }
    let mut line = Line { out, at };
    line.put_parts(n, a);
    line.at
}
