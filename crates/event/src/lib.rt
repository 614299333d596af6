// What an answer says has happened, with document 01's word and number for it.
#![tactic(auto)]

ghost use Rattle.std.specs.Prelude.{◌≡◌};
ghost use Rattle.event.specs.Words.{event_number, has_byte, word_text};

#[derive(Clone, Copy)]
pub enum Event {
    None,
    Moved,
    Cmd,
    Data,
    Stat,
    Took,
    Heard,
    Clear,
    Trigger,
    Ended,
    Passed,
    Noacc,
    Read,
    Lines,
}

impl Event {
    pub fn number(self) -> u8
        ensures { result ≡ event_number self }
    {
        self as u8
    }

    pub fn has_byte(self) -> bool
        ensures { result ≡ has_byte self }
    {
        !matches!(self, Event::None | Event::Moved)
    }

    // Its word, and the space that follows it in a line.
    pub fn word(self) -> &'static [u8]
        ensures { result.now ≡ word_text self }
    {
        match self {
            Event::None => b"none ",
            Event::Moved => b"moved ",
            Event::Cmd => b"cmd ",
            Event::Data => b"data ",
            Event::Stat => b"stat ",
            Event::Took => b"took ",
            Event::Heard => b"heard ",
            Event::Clear => b"clear ",
            Event::Trigger => b"trigger ",
            Event::Ended => b"ended ",
            Event::Passed => b"passed ",
            Event::Noacc => b"noacc ",
            Event::Read => b"read ",
            Event::Lines => b"lines ",
        }
    }
}
