// Four venues behind one line: arrivals and turns upon the layer in lent memory (crate lanes).
#![tactic(auto)]

ghost use Rattle.std.specs.Prelude.{◌≡◌, [], length};
ghost use Rattle.rules.specs.Records.{sheet};
ghost use Rattle.engine.specs.Runs.{call_of};
ghost use Rattle.lanes.specs.Memory.{head_called};
ghost use Rattle.dispatch.specs.Hosts.{reply_of, fresh_held, arrive_held, idle_returned, turn_reply_of, turn_held, told_of, host_turn};
ghost use Rattle.dispatch.specs.Requirements.{HeadReady};

use rules::Returned;

// A fresh layer -------------------------------------------------------------------------------

// The first layer of a host's memory. A memory of another length can hold none.
pub fn legging_layer_fresh(layer: &mut [u8]) -> u8
    ensures { reply_of result layer.new ≡ fresh_held layer.old }
{
    if layer.len() != lanes::LAYER {
        return 9;
    }
    for i in 0..4 {
        let at = lanes::LANE * i;
        let end = at + lanes::LANE;
        lanes::fresh_lane(&mut layer[at..end]);
    }
    layer[lanes::LAST] = 3;
    0
}

// A message arrives ---------------------------------------------------------------------------

// A message for one of the four venues. Only one that is taken up writes the memory.
pub fn arrive(layer: &mut [u8], venue: u32, message: &[u8]) -> u8
    ensures { reply_of result layer.new ≡ arrive_held layer.old venue message.now }
{
    if layer.len() != lanes::LAYER {
        return 9;
    }
    if !lanes::layer_sound(layer, 4) {
        return 9;
    }
    if 3 < venue {
        return 18;
    }
    let at = lanes::LANE * (venue as usize);
    let end = at + lanes::LANE;
    if 8 <= wire::u8_at(layer, at + lanes::COUNT) {
        return 17;
    }
    if 32 < message.len() {
        return 17;
    }
    lanes::join(&mut layer[at..end], message);
    0
}

// A turn --------------------------------------------------------------------------------------

// The one-message call with the message at the head of a lane's wait. It is compiled by itself: the stack that it takes is free again when the turn writes
// the venue.
#[inline(never)]
fn call_head(lane: &[u8], report: &mut [u8]) -> Returned
    requires { HeadReady lane.now }
    ensures { call_of result report.new ≡ head_called lane.now (length report.old) }
{
    let end = lanes::VENUE;
    let venue = venue_bytes::venue_from(&lane[..end]);
    let before = wire::u32_at(lane, lanes::DONE);
    let from = lanes::PLACES + 1;
    let to = from + usize::from(wire::u8_at(lane, lanes::PLACES));
    engine::one_message(venue, before, &lane[from..to], report)
}

// What a turn returns beside the layer and the report. Where no message was done, served is 4, the number that `legging_turn` tells a host in C.
#[derive(Clone, Copy)]
pub struct TurnReturned {
    pub number: u8,
    pub done: u32,
    pub written: usize,
    pub served: u8,
}

// What a turn returns that does no message.
fn unserved(number: u8) -> TurnReturned
    ensures { result ≡ idle_returned number }
{
    TurnReturned {
        number,
        done: 0,
        written: 0,
        served: 4,
    }
}

// A turn that serves no venue: a report of zeros.
fn idle(number: u8, report: &mut [u8]) -> TurnReturned
    ensures { (result ≡ idle_returned number) × (report.new ≡ sheet (length report.old) []) }
{
    records::zero_from(report, 0);
    unserved(number)
}

// The next venue that has a message waiting does the message at the head of its wait; the call with it checks this venue itself.
// The report holds its records, then zeros.
pub fn turn(layer: &mut [u8], report: &mut [u8]) -> TurnReturned
    ensures { turn_reply_of result layer.new report.new ≡ turn_held layer.old (length report.old) }
{
    if layer.len() != lanes::LAYER {
        return idle(9, report);
    }
    let next = lanes::next_waiting(layer);
    if !lanes::layer_sound(layer, next.unwrap_or(4)) {
        return idle(9, report);
    }
    let Some(v) = next else {
        return idle(0, report);
    };
    let at = lanes::LANE * v;
    let end = at + lanes::LANE;
    let r = call_head(&layer[at..end], report);
    if r.done == 0 {
        return unserved(r.number);
    }
    lanes::advance(&mut layer[at..end], r.number, r.venue);
    layer[lanes::LAST] = v as u8;
    TurnReturned {
        number: r.number,
        done: r.done,
        written: r.written,
        served: v as u8,
    }
}

// For a host ------------------------------------------------------------------------------------

// An arrival.
pub fn legging_arrive(layer: &mut [u8], venue: u32, message: &[u8]) -> u8
    ensures { reply_of result layer.new ≡ arrive_held layer.old venue message.now }
{
    arrive(layer, venue, message)
}

// A turn: its number, and 256 times the venue served.
pub fn legging_turn(layer: &mut [u8], report: &mut [u8]) -> u32
    ensures { told_of result layer.new report.new ≡ host_turn (turn_held layer.old (length report.old)) }
{
    let r = turn(layer, report);
    u32::from(r.number) + 256 * u32::from(r.served)
}
