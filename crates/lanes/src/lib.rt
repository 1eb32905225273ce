// The layer of four venues in lent memory (specs/Memory.antt), lane by lane: checked, joined, and moved on.
#![tactic(auto)]

ghost use Rattle.std.specs.Prelude.{◌≡◌, ◌++◌, ◌+◌, ◌-◌, length, take, drop, replicate};
ghost use Rattle.rules.specs.Bytes.{u8_at, u32_at, u8, u32};
ghost use Rattle.records.specs.Seen.{pasted};
ghost use Rattle.venue_bytes.specs.Held.{venue_size};
ghost use Rattle.layer.specs.Layer.{fresh_lane, wait_sound};
ghost use Rattle.lanes.specs.Memory.{done_at, count_at, places_at, place_size, lane_size, layer_size, lane_from, layer_from, place_bytes, lane_bytes, joined_bytes, venue_part, advanced_bytes};
ghost use Rattle.lanes.specs.Checks.{lane_sound_but, layer_sound_but, to_serve};
ghost use Rattle.lanes.specs.Requirements.{DoneReady, WaitingReady, AdvanceReady, JoinReady, PlaceFor};

use rules::Venue;

// A venue's bytes, as crate venue_bytes has them, and the numbers that it is laid out in to be checked, as crate places has them.
pub const VENUE: usize = venue_bytes::VENUE_SIZE;

const NUMBERS: usize = places::SIZE;

// What follows from them: where the parts of a lane begin (specs/Memory.antt), and the last byte.
pub const DONE: usize = VENUE;

pub const COUNT: usize = VENUE + 4;

pub const PLACES: usize = VENUE + 5;

const PLACE: usize = 33;

const SECOND: usize = PLACES + PLACE;

const MOVED: usize = 7 * PLACE;

const EIGHTH: usize = PLACES + MOVED;

pub const LANE: usize = EIGHTH + PLACE;

pub const LAST: usize = 4 * LANE;

pub const LAYER: usize = LAST + 1;

// Is the layer sound? -------------------------------------------------------------------------

// How many messages wait in a lane, and how long each is, are in their ranges.
fn wait_sound(lane: &[u8]) -> bool
    ensures { result ≡ wait_sound (lane_from lane.now).wait }
{
    let count = usize::from(wire::u8_at(lane, COUNT));
    if 8 < count {
        return false;
    }
    for i in 0..count {
        let length = wire::u8_at(lane, PLACE * i + PLACES);
        if 32 < length {
            return false;
        }
    }
    true
}

// The same of lane `v`, and its venue gets no 9 unless it is `but`.
fn lane_sound(lane: &[u8], v: usize, but: usize) -> bool
    requires { length lane.now ≡ lane_size }
    ensures { result ≡ lane_sound_but but v (lane_from lane.now) }
{
    if !wait_sound(lane) {
        return false;
    }
    if v == but {
        return true;
    }
    let end = VENUE;
    let venue = venue_bytes::venue_from(&lane[..end]);
    let before = wire::u32_at(lane, DONE);
    let mut numbers = [0u32; NUMBERS];
    soundness::load_ready(&mut numbers, venue, before)
}

// No figure of the layer is out of range, and no venue but one gets 9; with 4, none, as the definition `layer_sound_but` has it.
pub fn layer_sound(layer: &[u8], but: usize) -> bool
    requires { length layer.now ≡ layer_size }
    ensures { result ≡ layer_sound_but but (layer_from layer.now) }
{
    if 3 < layer[LAST] {
        return false;
    }
    for i in 0..4 {
        let at = LANE * i;
        let end = at + LANE;
        if !lane_sound(&layer[at..end], i, but) {
            return false;
        }
    }
    true
}

// A fresh layer -------------------------------------------------------------------------------

// The bytes of a lane of a fresh venue, with no message waiting.
pub fn fresh_lane(lane: &mut [u8])
    requires { length lane.old ≡ lane_size }
    ensures { lane.new ≡ lane_bytes fresh_lane }
{
    let fresh = arithmetic::fresh();
    let end = VENUE;
    venue_writer::put_venue(&mut lane[..end], fresh);
    records::zero_from(lane, VENUE);
}

// A message arrives ---------------------------------------------------------------------------

// A message in a place of its own, and zeros after it.
fn put_place(place: &mut [u8], message: &[u8])
    requires { PlaceFor place.old message.now }
    ensures { place.new ≡ place_bytes message.now }
{
    place[0] = message.len() as u8;
    let end = records::put(place, 1, message);
    records::zero_from(place, end);
}

// A message at the end of a lane's wait.
pub fn join(lane: &mut [u8], message: &[u8])
    requires { JoinReady lane.old message.now }
    ensures { lane.new ≡ joined_bytes lane.old message.now }
{
    let count = wire::u8_at(lane, COUNT);
    let at = PLACE * usize::from(count) + PLACES;
    let end = at + PLACE;
    put_place(&mut lane[at..end], message);
    lane[COUNT] = count + 1;
}

// A turn --------------------------------------------------------------------------------------

// The next venue after the last one served, going round, that has a message waiting.
pub fn next_waiting(layer: &[u8]) -> Option<usize>
    requires { length layer.now ≡ layer_size }
    ensures { result ≡ to_serve (layer_from layer.now) }
{
    let after = usize::from(wire::u8_at(layer, LAST)) + 1;
    for i in 0..4 {
        let v = (after + i) % 4;
        if wire::u8_at(layer, LANE * v + COUNT) != 0 {
            return Some(v);
        }
    }
    None
}

// The venue after its message: its bytes are written where the message was accepted.
fn put_after(lane: &mut [u8], number: u8, venue: Venue)
    requires { length lane.old ≡ lane_size }
    ensures { lane.new ≡ venue_part lane.old number venue ++ drop venue_size lane.old }
{
    if number != 0 {
        return;
    }
    let end = VENUE;
    venue_writer::put_venue(&mut lane[..end], venue);
}

// One message more done.
fn count_done(lane: &mut [u8])
    requires { DoneReady lane.old }
    ensures { lane.new ≡ pasted lane.old done_at (u32 (u32_at lane.old done_at + 1)) }
{
    let before = wire::u32_at(lane, DONE);
    let done = records::bytes4(before + 1);
    records::put(lane, DONE, &done);
}

// The wait without its head: each place one place down, and the last one free.
fn drop_head(lane: &mut [u8])
    requires { WaitingReady lane.old }
    ensures { lane.new ≡ take count_at lane.old ++ u8 (u8_at lane.old count_at - 1) ++ drop (places_at + place_size) lane.old ++ replicate place_size 0 }
{
    let count = wire::u8_at(lane, COUNT);
    lane.copy_within(SECOND..LANE, PLACES);
    records::zero_from(lane, EIGHTH);
    lane[COUNT] = count - 1;
}

// A lane whose head a call has done.
pub fn advance(lane: &mut [u8], number: u8, venue: Venue)
    requires { AdvanceReady lane.old }
    ensures { lane.new ≡ advanced_bytes lane.old number venue }
{
    put_after(lane, number, venue);
    count_done(lane);
    drop_head(lane);
}
