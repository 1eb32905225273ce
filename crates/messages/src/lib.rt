// One message upon the venue as numbers, from its bytes: refused or accepted, with its answer.
#![tactic(auto)]

ghost use Rattle.std.specs.Prelude.{◌≡◌, length};
ghost use Rattle.rules.specs.Step as step;
ghost use Rattle.places.specs.Layout.{venue_of};
ghost use Rattle.answers.specs.Steps.{Steps};
ghost use Rattle.messages.specs.Frames.{FrameRefusal};
ghost use Rattle.messages.specs.Tries.{Tries};
ghost use Rattle.answers.specs.Requirements.{SoundNumbers};
ghost use Rattle.messages.specs.Requirements.{FirstKind, MarketKind, LaterKind};

use answers::Stepped;
use places::Numbers;
use rules::Refusal;

// One message ---------------------------------------------------------------------------------

// The first of the refusals 1 to 3 that the bytes meet, if they meet one.
fn frame_refusal(message: &[u8]) -> Result<(), Refusal>
    ensures { FrameRefusal message.now result }
{
    if message.len() < 4 {
        return Err(Refusal::Torn);
    }
    let size = wire::half_at(message, 0);
    if size < 4 {
        return Err(Refusal::Torn);
    }
    if message.len() < usize::from(size) {
        return Err(Refusal::Torn);
    }
    let kind = wire::half_at(message, 2);
    if kind == 0 {
        return Err(Refusal::NoKind);
    }
    if 11 < kind {
        return Err(Refusal::NoKind);
    }
    if size != arithmetic::length_of(kind) {
        return Err(Refusal::WrongLength);
    }
    Ok(())
}

// Kinds 1 to 3.
fn first_kinds(
    numbers: &mut Numbers,
    number: u32,
    kind: u16,
    message: &[u8],
    out: &mut [u8],
) -> Stepped
    requires { FirstKind numbers.old message.now kind }
    ensures { Steps (step.step (venue_of numbers.old) number message.now) out.old result numbers.new out.new }
{
    if kind <= 1 {
        let o = wire::order_at(message, wire::word_at(message, 14));
        return order_messages::order_step(numbers, number, o, out);
    }
    if kind <= 2 {
        let c = wire::two_leg_at(message, 1, 1);
        return order_messages::pair_step(numbers, number, c, out);
    }
    let id = wire::word_at(message, 4);
    order_messages::cancel_step(numbers, number, id, out)
}

// Kinds 4 to 6.
fn market_kinds(
    numbers: &mut Numbers,
    number: u32,
    kind: u16,
    message: &[u8],
    out: &mut [u8],
) -> Stepped
    requires { MarketKind numbers.old message.now kind }
    ensures { Steps (step.step (venue_of numbers.old) number message.now) out.old result numbers.new out.new }
{
    if kind <= 4 {
        let s = wire::byte_at(message, 4);
        let bid = wire::word_at(message, 5);
        let offer = wire::word_at(message, 9);
        return market_messages::away_step(numbers, number, s, bid, offer, out);
    }
    if kind <= 5 {
        let s = wire::byte_at(message, 4);
        let status = wire::byte_at(message, 5);
        return market_messages::status_step(numbers, number, s, status, out);
    }
    market_messages::sweep_step(numbers, number, out)
}

// Kinds 7 to 11.
fn later_kinds(
    numbers: &mut Numbers,
    number: u32,
    kind: u16,
    message: &[u8],
    out: &mut [u8],
) -> Stepped
    requires { LaterKind numbers.old message.now kind }
    ensures { Steps (step.step (venue_of numbers.old) number message.now) out.old result numbers.new out.new }
{
    if kind <= 7 {
        let s = wire::byte_at(message, 4);
        let x = wire::byte_at(message, 5);
        let edition = wire::word_at(message, 6);
        return market_messages::increment_step(numbers, number, s, x, edition, out);
    }
    if kind <= 8 {
        let x = wire::byte_at(message, 4);
        let edition = wire::word_at(message, 5);
        return market_messages::percent_step(numbers, number, x, edition, out);
    }
    if kind <= 9 {
        let o = wire::order_at(message, wire::word_at(message, 18));
        return order_messages::order_step(numbers, number, o, out);
    }
    if kind <= 10 {
        let c = wire::two_leg_at(
            message,
            wire::byte_at(message, 21),
            wire::byte_at(message, 22),
        );
        return order_messages::ratio_step(numbers, number, c, out);
    }
    let n = wire::byte_at(message, 4);
    market_messages::limited_step(numbers, number, n, out)
}

// The message at the front of `message`, of this number, taken apart once by its kind: its answer and its records from the start of `out`.
pub fn step(numbers: &mut Numbers, number: u32, message: &[u8], out: &mut [u8]) -> Stepped
    requires { SoundNumbers numbers.old }
    ensures { Steps (step.step (venue_of numbers.old) number message.now) out.old result numbers.new out.new }
{
    if let Err(refusal) = frame_refusal(message) {
        return answers::refuse(numbers, number, arithmetic::refusal_number(refusal), out);
    }
    let kind = wire::half_at(message, 2);
    if kind <= 3 {
        return first_kinds(numbers, number, kind, message, out);
    }
    if kind <= 6 {
        return market_kinds(numbers, number, kind, message, out);
    }
    later_kinds(numbers, number, kind, message, out)
}

// A message whose records may not fit ------------------------------------------------------------

// A step whose records may not fit: where they do not, the numbers are as they were.
fn step_or_leave(numbers: &mut Numbers, number: u32, message: &[u8], out: &mut [u8]) -> Stepped
    requires { SoundNumbers numbers.old }
    ensures { Tries (step.step (venue_of numbers.old) number message.now) numbers.old out.old result numbers.new out.new }
{
    let kept = *numbers;
    let r = step(numbers, number, message, out);
    if r.written <= out.len() {
        return r;
    }
    *numbers = kept;
    r
}

// The same; with room for the most that a message upon a sound venue writes, the numbers need not be kept.
pub fn try_step(numbers: &mut Numbers, number: u32, message: &[u8], out: &mut [u8]) -> Stepped
    requires { SoundNumbers numbers.old }
    ensures { Tries (step.step (venue_of numbers.old) number message.now) numbers.old out.old result numbers.new out.new }
{
    if out.len() < 10433 {
        return step_or_leave(numbers, number, message, out);
    }
    step(numbers, number, message, out)
}
