// The calls for a host in C: the run, the first venue, one message, the feed, the settings, and a set written and read.
#![tactic(auto)]

ghost use Rattle.std.specs.Prelude.{◌≡◌, ◌≤◌, length};
ghost use Rattle.rules.specs.Calls as calls;
ghost use Rattle.rules.specs.Bytes.{u32};
ghost use Rattle.records.specs.Seen.{pasted};
ghost use Rattle.feed.specs.Feed as feeding;
ghost use Rattle.set_reader.specs.Returned.{set_read};
ghost use Rattle.engine.specs.Hosts.{first_venue, fresh_hosted, hosted, one_hosted, settings_bytes, told, settings_hosted};
ghost use Rattle.engine.specs.Hosts.{saves_as, save_hosted, read_for, resumes_as, resume_hosted};

use rules::Settings;
use set_reader::Resumed;

// The run, for a host: messages in, the report out, and the number that ended it returned.
pub fn legging_run(messages: &[u8], report: &mut [u8]) -> u8
    ensures { (result ≡ (calls.run (length report.old) messages.now).returned.number) × (report.new ≡ (calls.run (length report.old) messages.now).report) }
{
    let r = engine::run(messages, report);
    r.number
}

// The first venue of a host's memory: the fresh one, as `state` holds it. A memory of another length can hold none.
pub fn legging_fresh(venue: &mut [u8]) -> u8
    ensures { first_venue result venue.new ≡ fresh_hosted venue.old }
{
    if venue.len() != venue_bytes::VENUE_SIZE {
        return 9;
    }
    let fresh = arithmetic::fresh();
    venue_writer::put_venue(venue, fresh);
    0
}

// One message upon the venue in a host's memory, as `state` holds it; the number is returned. Only an accepted message writes that memory.
// One of another length holds no venue.
pub fn legging_message(venue: &mut [u8], before: u32, message: &[u8], report: &mut [u8]) -> u8
    ensures { hosted result venue.new report.new ≡ one_hosted venue.old before (length report.old) message.now }
{
    if venue.len() != venue_bytes::VENUE_SIZE {
        records::zero_from(report, 0);
        return 9;
    }
    let given = venue_bytes::venue_from(venue);
    let r = engine::one_message(given, before, message, report);
    if r.number != 0 {
        return r.number;
    }
    let after = r.venue;
    venue_writer::put_venue(venue, after);
    r.number
}

// The two lines of a feed, for a host: the report out, and the number that ended it returned.
pub fn legging_feed<'a>(main: &'a [u8], spare: &'a [u8], report: &mut [u8]) -> u8
    ensures { (result ≡ (feeding.feed (length report.old) main.now spare.now).returned.number) × (report.new ≡ (feeding.feed (length report.old) main.now spare.now).report) }
{
    let r = feed_run::feed(main, spare, report);
    r.number
}

// The settings' bytes at the front of a memory.
fn put_settings(out: &mut [u8], s: Settings)
    requires { 9 ≤ length out.old }
    ensures { out.new ≡ pasted out.old 0 (settings_bytes s) }
{
    let increments = s.increments;
    let at = records::put(out, 0, &increments);
    let percent = [s.percent];
    records::put(out, at, &percent);
}

// The settings of the venue in a host's memory at a message number: the eight increments, then the percent, in the first nine bytes of the memory for
// them, and zero in each byte after; the number is returned. A memory of another length holds no venue, and one of fewer bytes no settings.
pub fn legging_settings(venue: &[u8], number: u32, settings: &mut [u8]) -> u8
    ensures { told result settings.new ≡ settings_hosted venue.now number (length settings.old) }
{
    records::zero_from(settings, 0);
    if venue.len() != venue_bytes::VENUE_SIZE {
        return 9;
    }
    if settings.len() < 9 {
        return 9;
    }
    let given = venue_bytes::venue_from(venue);
    let s = settings::settings(given, number);
    put_settings(settings, s);
    s.number
}

// A number in a memory of its four bytes.
fn put_number(out: &mut [u8], x: u32)
    requires { length out.old ≡ 4 }
    ensures { out.new ≡ u32 x }
{
    let bytes = records::bytes4(x);
    records::put(out, 0, &bytes);
}

// The venue in a host's memory and the number of its last message, written as a set from the front of the set's memory on; zero in each byte after, and how
// many the set has in the four bytes of `written`. The number is returned. A memory of another length holds no venue or no count.
pub fn legging_write_set(venue: &[u8], number: u32, set: &mut [u8], written: &mut [u8]) -> u8
    ensures { saves_as result set.new written.new ≡ save_hosted venue.now number (length set.old) (length written.old) }
{
    records::zero_from(set, 0);
    records::zero_from(written, 0);
    if venue.len() != venue_bytes::VENUE_SIZE {
        return 9;
    }
    if written.len() != 4 {
        return 9;
    }
    let given = venue_bytes::venue_from(venue);
    match set_writer::write_set(given, number, set) {
        Ok(size) => {
            put_number(written, size as u32);
            0
        }
        Err(error) => error.number(),
    }
}

// The venue and the message number of a set; 9, a fresh venue and 0 where the number's memory has other than four bytes.
fn read_for(set: &[u8], room: usize) -> Resumed
    ensures { set_read result ≡ read_for room set.now }
{
    if room != 4 {
        return set_reader::refused(9);
    }
    set_reader::read_set(set)
}

// The venue and the message number of a set, in a host's memory for either; the number is returned. A refused set is a fresh venue and zeros. A memory of
// another length can hold no venue, and is as it was.
pub fn legging_read_set(set: &[u8], venue: &mut [u8], number: &mut [u8]) -> u8
    ensures { resumes_as result venue.new number.new ≡ resume_hosted set.now venue.old number.old }
{
    records::zero_from(number, 0);
    if venue.len() != venue_bytes::VENUE_SIZE {
        return 9;
    }
    let r = read_for(set, number.len());
    let read = r.venue;
    venue_writer::put_venue(venue, read);
    if number.len() != 4 {
        return r.number;
    }
    put_number(number, r.message);
    r.number
}
