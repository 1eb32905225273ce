// Two lines of one feed: 21's test of a line, what comes of the next number, and its message as a part of the line that has it. Both lines are only read,
// and no message is copied. Each line is passed once by the test and once by the handing out, and a message that both have is compared once.
#![tactic(auto)]

ghost use Rattle.std.specs.Prelude.{◌≡◌, ◌&&◌, leb, ℕ, suc, ◌+◌, ◌<◌, length, MatchResult};
ghost use Rattle.feed.specs.Feed.{number_of, message_in, faultless, same};
ghost use Rattle.feed.specs.Cursors.{left_of, part_length, stop_of, stop_number, part_of, line_after};
ghost use Rattle.feed.specs.Requirements.{MessageThere, LineReady, LinesReady, LinesLeft};

use reader::Head;

// A line and the position of its next number.
#[derive(Clone, Copy)]
pub struct Line<'a> {
    pub bytes: &'a [u8],
    pub at: usize,
}

impl<'a> Line<'a> {
    // The next number; 0 where its four bytes are not there, as definition `number_of` has it. No message of a line has number 0.
    fn number(self) -> u32
        ensures { result ≡ number_of (left_of self.entry) }
    {
        if self.is_at_end() {
            return 0;
        }
        if self.bytes.len() - self.at < 4 {
            return 0;
        }
        wire::u32_at(self.bytes, self.at)
    }

    // The length of the message behind the next number; none where it is torn or the number is not above `last`.
    fn part_length(self, last: u32) -> Option<u16>
        ensures { result ≡ part_length last (left_of self.entry) }
    {
        let number = self.number();
        if number <= last {
            return None;
        }
        match reader::message_head(self.bytes, self.at + 4) {
            Head::Message(length) => Some(length),
            _ => None,
        }
    }

    // The message behind the next number.
    fn message(self) -> &'a [u8]
        requires { MessageThere self }
        ensures { result.now ≡ message_in (left_of self.entry) }
    {
        let from = self.at + 4;
        let length = wire::u16_at(self.bytes, from);
        let end = from + usize::from(length);
        &self.bytes[from..end]
    }

    // The line is at its end.
    fn is_at_end(self) -> bool
        ensures { result ≡ leb (length self.entry.bytes.now) self.entry.at }
    {
        self.bytes.len() <= self.at
    }

    // The line once a number's message is handed out.
    pub fn moved(self, number: u32) -> Line<'a>
        requires { LineReady self number }
        ensures { result ≡ line_after number self.entry }
    {
        if self.number() != number {
            return self;
        }
        let from = self.at + 4;
        let length = wire::u16_at(self.bytes, from);
        Line {
            bytes: self.bytes,
            at: from + usize::from(length),
        }
    }
}

// 21's test of a whole line.
// The walk is by position, as each message's length says where the next number stands, and what is torn ends it.
pub fn is_faultless(line: &[u8]) -> bool
    ensures { result ≡ faultless line.now }
{
    let mut last = 0u32;
    let mut at = 0usize;
    while at < line.len() {
        let here = Line { bytes: line, at };
        let Some(length) = here.part_length(last) else {
            return false;
        };
        last = here.number();
        at += 4 + usize::from(length);
    }
    true
}

// The next messages of both lines are the same.
fn same_messages<'a>(main: Line<'a>, spare: Line<'a>) -> bool
    requires main { MessageThere main }
    requires spare { MessageThere spare }
    ensures { result ≡ same (message_in (left_of main.entry)) (message_in (left_of spare.entry)) }
{
    let a = main.message();
    let b = spare.message();
    a == b
}

// Both lines are at their ends.
pub fn at_ends<'a>(main: Line<'a>, spare: Line<'a>) -> bool
    ensures { result ≡ (leb (length main.entry.bytes.now) main.entry.at && leb (length spare.entry.bytes.now) spare.entry.at) }
{
    if main.is_at_end() {
        return spare.is_at_end();
    }
    false
}

// What stops the handing out at the number that comes up: both lines have it but their bytes differ, or neither has it though a later one stands.
#[derive(Clone, Copy, PartialEq, Eq)]
pub enum Stop {
    Differ,
    Lost,
}

// What stops the handing out, as the number of the call.
pub fn stop_number(stop: Stop) -> u8
    ensures { result ≡ stop_number stop }
{
    match stop {
        Stop::Differ => 19,
        Stop::Lost => 20,
    }
}

// The number that comes up after `done` if its message is handed out, or what stops it. The lines are not both at their ends.
pub fn up_next<'a>(main: Line<'a>, spare: Line<'a>, done: u32) -> Result<u32, Stop>
    requires { LinesLeft main spare done }
    ensures comes { MatchResult result (λ number. (number ≡ suc done) × (stop_of (suc done) (left_of main.entry) (left_of spare.entry) ≡ 0)) (λ stop. stop_number stop ≡ stop_of (suc done) (left_of main.entry) (left_of spare.entry)) }
    ensures few { suc done < 4294967296 }
{
    let here = main.number();
    let there = spare.number();
    let number = done + 1;
    if here != number {
        if there != number {
            return Err(Stop::Lost);
        }
        return Ok(number);
    }
    if there != number {
        return Ok(number);
    }
    if same_messages(main, spare) {
        return Ok(number);
    }
    Err(Stop::Differ)
}

// The message of the number that comes up, as a part of whichever line's memory has it, main first.
pub fn next_part<'a>(main: Line<'a>, spare: Line<'a>, number: u32) -> &'a [u8]
    requires { LinesReady main spare number }
    ensures { result.now ≡ part_of number (left_of main.entry) (left_of spare.entry) }
{
    if main.number() == number {
        return main.message();
    }
    spare.message()
}
