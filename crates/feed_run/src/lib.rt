// The messages of two lines of one feed, number by number, from a fresh venue.
#![tactic(auto)]

ghost use Rattle.std.specs.Prelude.{◌≡◌, length};
ghost use Rattle.feed.specs.Feed as feeding;
ghost use Rattle.engine.specs.Runs.{call_of};
ghost use Rattle.feed_run.specs.Feeds.{stops_at, FeedReady, Feeds};
ghost use Rattle.feed_run.specs.Requirements.{LinesFaultless};

use feed::Line;
use places::Numbers;
use rules::Returned;

// Two lines of one feed --------------------------------------------------------------------------

// Where the handing out stands: its number, the messages done, each line with the position on it, and the bytes written.
#[derive(Clone, Copy)]
pub struct FeedProgress<'a> {
    pub number: u8,
    pub done: u32,
    pub main: Line<'a>,
    pub spare: Line<'a>,
    pub written: usize,
}

// The handing out stopped with a number, where it stands.
fn stop_at<'a>(t: FeedProgress<'a>, number: u8) -> FeedProgress<'a>
    ensures { result ≡ stops_at t.entry number }
{
    FeedProgress { number, ..t }
}

// One message more, or what stops it. The lines are not both at their ends.
fn hand_out<'a>(t: FeedProgress<'a>, numbers: &mut Numbers, report: &mut [u8]) -> FeedProgress<'a>
    requires { FeedReady t numbers.old report.old }
    ensures { Feeds t.entry numbers.old report.old result numbers.new report.new }
{
    let from = t.written;
    let number = match feed::up_next(t.main, t.spare, t.done) {
        Ok(number) => number,
        Err(stop) => return stop_at(t, feed::stop_number(stop)),
    };
    let part = feed::next_part(t.main, t.spare, number);
    let r = messages::try_step(numbers, number, part, &mut report[from..]);
    let written = r.written;
    if report.len() - from < written {
        return stop_at(t, 10);
    }
    let next = t.main.moved(number);
    let after = t.spare.moved(number);
    FeedProgress {
        number: 0,
        done: number,
        main: next,
        spare: after,
        written: from + written,
    }
}

// The messages of two faultless lines, number by number, from a fresh venue.
fn feed_lines<'a>(main: &'a [u8], spare: &'a [u8], report: &mut [u8]) -> Returned
    requires { LinesFaultless main.now spare.now }
    ensures { call_of result report.new ≡ feeding.feed (length report.old) main.now spare.now }
{
    let mut numbers = venue_numbers::fresh_numbers();
    let mut t = FeedProgress {
        number: 0,
        done: 0,
        main: Line { bytes: main, at: 0 },
        spare: Line {
            bytes: spare,
            at: 0,
        },
        written: 0,
    };
    // Each line's position moves on by its own messages' lengths, so no range is known beforehand.
    while !feed::at_ends(t.main, t.spare) {
        t = hand_out(t, &mut numbers, report);
        if t.number != 0 {
            break;
        }
    }
    records::zero_from(report, t.written);
    let venue = places::venue_of(&numbers);
    Returned {
        number: t.number,
        done: t.done,
        written: t.written,
        venue,
    }
}

// The messages of a main and a spare line, each after its number, from a fresh venue. The report holds their records, then zeros.
pub fn feed<'a>(main: &'a [u8], spare: &'a [u8], report: &mut [u8]) -> Returned
    ensures { call_of result report.new ≡ feeding.feed (length report.old) main.now spare.now }
{
    if !feed::is_faultless(main) {
        return engine::end_call(21, arithmetic::fresh(), report);
    }
    if !feed::is_faultless(spare) {
        return engine::end_call(21, arithmetic::fresh(), report);
    }
    feed_lines(main, spare, report)
}
