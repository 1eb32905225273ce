// The engine: the run of a message list, and one message upon a venue held by value.
#![tactic(auto)]

ghost use Rattle.std.specs.Prelude.{◌≡◌, length};
ghost use Rattle.rules.specs.Calls.{called, ends};
ghost use Rattle.rules.specs.Calls as calls;
ghost use Rattle.engine.specs.Runs.{RunReady, Advances, call_of};

use places::Numbers;
use reader::Head;
use rules::{Returned, Venue};

// A run -----------------------------------------------------------------------------------------

// Where a run stands: its number, the messages done, the position in them, and the bytes written. The number is document 01's, 0 while the run goes on:
// a run that has ended keeps the other three, so it is no Result.
#[derive(Clone, Copy)]
pub struct RunProgress {
    pub number: u8,
    pub done: u32,
    pub at: usize,
    pub written: usize,
}

// One message more, or what is torn: `head` stands at the position.
fn advance(
    t: RunProgress,
    head: Head,
    numbers: &mut Numbers,
    messages: &[u8],
    report: &mut [u8],
) -> RunProgress
    requires { RunReady t head numbers.old messages.now report.old }
    ensures { Advances messages.now t numbers.old report.old result numbers.new report.new }
{
    if t.done == 4294967295 {
        return RunProgress { number: 10, ..t };
    }
    let done = t.done + 1;
    let r = messages::try_step(numbers, done, &messages[t.at..], &mut report[t.written..]);
    if report.len() - t.written < r.written {
        return RunProgress { number: 10, ..t };
    }
    RunProgress {
        number: reader::head_number(head),
        done,
        at: t.at + usize::from(reader::head_length(head)),
        written: t.written + r.written,
    }
}

// The messages one by one, from a fresh venue. The report holds their records, then zeros.
pub fn run(messages: &[u8], report: &mut [u8]) -> Returned
    ensures { call_of result report.new ≡ calls.run (length report.old) messages.now }
{
    let mut numbers = venue_numbers::fresh_numbers();
    let mut t = RunProgress {
        number: 0,
        done: 0,
        at: 0,
        written: 0,
    };
    // The position moves on by each message's own length, and a number ends the run, so no range is known beforehand.
    while t.at < messages.len() {
        let head = reader::message_head(messages, t.at);
        t = advance(t, head, &mut numbers, messages, report);
        if t.number != 0 {
            break;
        }
    }
    records::zero_from(report, t.written);
    let venue = places::venue_of(&numbers);
    Returned {
        number: t.number,
        done: t.done,
        written: t.written,
        venue,
    }
}

// One message upon a venue -----------------------------------------------------------------------

// A call that ends before its message: the venue as it was given, and a report of zeros.
pub fn end_call(number: u8, venue: Venue, report: &mut [u8]) -> Returned
    ensures { call_of result report.new ≡ called (length report.old) (ends number venue) }
{
    records::zero_from(report, 0);
    Returned {
        number,
        done: 0,
        written: 0,
        venue,
    }
}

// One message upon a venue, `before` messages having gone before it. The report holds its records, then zeros.
pub fn one_message(venue: Venue, before: u32, message: &[u8], report: &mut [u8]) -> Returned
    ensures { call_of result report.new ≡ calls.one venue before (length report.old) message.now }
{
    let mut numbers = [0u32; places::SIZE];
    if !soundness::load_sound(&mut numbers, venue) {
        return end_call(9, venue, report);
    }
    if before == 4294967295 {
        return end_call(10, venue, report);
    }
    if !soundness::follows_kept(&numbers, before + 1) {
        return end_call(9, venue, report);
    }
    let r = messages::step(&mut numbers, before + 1, message, report);
    let written = r.written;
    if report.len() < written {
        return end_call(10, venue, report);
    }
    records::zero_from(report, written);
    let after = places::venue_of(&numbers);
    Returned {
        number: r.refused,
        done: 1,
        written,
        venue: after,
    }
}
