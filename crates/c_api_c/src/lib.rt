// The archive of one venue for a host in C: each call of the crate c_api under its own name.
#![tactic(auto)]

ghost use Rattle.std.specs.Prelude.{◌≡◌, length};
ghost use Rattle.rules.specs.Calls as calls;
ghost use Rattle.feed.specs.Feed as feeding;
ghost use Rattle.engine.specs.Hosts.{first_venue, fresh_hosted, hosted, one_hosted, told, settings_hosted};
ghost use Rattle.engine.specs.Hosts.{saves_as, save_hosted, resumes_as, resume_hosted};

// The run, for a host: messages in, the report out, and the number that ended it returned.
#[unsafe(no_mangle)]
pub extern "C" fn legging_run(messages: &[u8], report: &mut [u8]) -> u8
    ensures { (result ≡ (calls.run (length report.old) messages.now).returned.number) × (report.new ≡ (calls.run (length report.old) messages.now).report) }
{
    c_api::legging_run(messages, report)
}

// The first venue of a host's memory: the fresh one, as `state` holds it. A memory of another length can hold none.
#[unsafe(no_mangle)]
pub extern "C" fn legging_fresh(venue: &mut [u8]) -> u8
    ensures { first_venue result venue.new ≡ fresh_hosted venue.old }
{
    c_api::legging_fresh(venue)
}

// One message upon the venue in a host's memory, as `state` holds it; the number is returned. Only an accepted message writes that memory.
// One of another length holds no venue.
#[unsafe(no_mangle)]
pub extern "C" fn legging_message(
    venue: &mut [u8],
    before: u32,
    message: &[u8],
    report: &mut [u8],
) -> u8
    ensures { hosted result venue.new report.new ≡ one_hosted venue.old before (length report.old) message.now }
{
    c_api::legging_message(venue, before, message, report)
}

// The two lines of a feed, for a host: the report out, and the number that ended it returned.
#[unsafe(no_mangle)]
pub extern "C" fn legging_feed<'a>(main: &'a [u8], spare: &'a [u8], report: &mut [u8]) -> u8
    ensures { (result ≡ (feeding.feed (length report.old) main.now spare.now).returned.number) × (report.new ≡ (feeding.feed (length report.old) main.now spare.now).report) }
{
    c_api::legging_feed(main, spare, report)
}

// The settings of the venue in a host's memory at a message number: the eight increments, then the percent, in the first nine bytes of the memory for
// them, and zero in each byte after; the number is returned. A memory of another length holds no venue, and one of fewer bytes no settings.
#[unsafe(no_mangle)]
pub extern "C" fn legging_settings(venue: &[u8], number: u32, settings: &mut [u8]) -> u8
    ensures { told result settings.new ≡ settings_hosted venue.now number (length settings.old) }
{
    c_api::legging_settings(venue, number, settings)
}

// The venue in a host's memory and the number of its last message, written as a set from the front of the set's memory on; zero in each byte after, and how
// many the set has in the four bytes of `written`. The number is returned. A memory of another length holds no venue or no count.
#[unsafe(no_mangle)]
pub extern "C" fn legging_write_set(
    venue: &[u8],
    number: u32,
    set: &mut [u8],
    written: &mut [u8],
) -> u8
    ensures { saves_as result set.new written.new ≡ save_hosted venue.now number (length set.old) (length written.old) }
{
    c_api::legging_write_set(venue, number, set, written)
}

// The venue and the message number of a set, in a host's memory for either; the number is returned. A refused set is a fresh venue and zeros. A memory of
// another length can hold no venue, and is as it was.
#[unsafe(no_mangle)]
pub extern "C" fn legging_read_set(set: &[u8], venue: &mut [u8], number: &mut [u8]) -> u8
    ensures { resumes_as result venue.new number.new ≡ resume_hosted set.now venue.old number.old }
{
    c_api::legging_read_set(set, venue, number)
}
