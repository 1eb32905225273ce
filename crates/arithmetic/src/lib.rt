// The leaf functions on numbers, over the types and definitions of rules.
#![tactic(auto)]

ghost use Rattle.std.specs.Prelude.{◌≡◌, ℕ, min, ◌+◌, ◌≤◌, ◌-◌, eqb, ℤ, pos, nat_abs, ◌+ℤ◌, if◌then◌else◌};
ghost use Rattle.rules.specs.Words.{opposite, sign_times, place_of, fresh_venue, sell, is_price, is_quantity, is_ratio, one_to_one, within};
ghost use Rattle.rules.specs.Settings.{base_figure, is_increment};
ghost use Rattle.rules.specs.Messages.{length_of, message_form};
ghost use Rattle.rules.specs.Records.{cause_number};
ghost use Rattle.rules.specs.Prices.{shown_size, displayed_price, weighed, near_net, better, better_of, reaches};
ghost use Rattle.rules.specs.Standing.{verdict_number};
ghost use Rattle.rules.specs.Refusals.{decoded_number, refusal_number};

use rules::{Cause, Complex, Listed, Message, Refusal, Regular, Venue, Verdict};

// The venue with no orders, all series open and no away prices.
pub fn fresh() -> Venue
    ensures { result ≡ fresh_venue }
{
    let regular = rules::NO_REGULAR;
    let complex = rules::NO_COMPLEX;
    let legging = rules::NO_LEGGING;
    let listed = Listed {
        status: 1,
        bid: 0,
        offer: 0,
    };
    let edition = rules::NO_EDITION;
    let generations = rules::NO_GENERATIONS;
    Venue {
        regular: [regular; 128],
        complex: [complex; 32],
        legging: [legging; 16],
        series: [listed; 8],
        editions: [edition; 32],
        generations: [generations; 8],
        last: 0,
        reached: 0,
    }
}

// The side that a leg or an order of this side takes.
pub fn opposite_of(side: u8) -> u8
    ensures { result ≡ opposite side }
{
    if side == 0 {
        return 1;
    }
    0
}

// A figure of edition 0: the increment of series 0 to 7, and the percent.
pub fn base_figure(figure: u8) -> u8
    ensures { result ≡ base_figure figure }
{
    if figure < 6 {
        return 5;
    }
    if figure < 8 {
        return 10;
    }
    5
}

// A legging order's displayed price: its own, down (buy) or up (sell) to the increment of its series.
pub fn displayed_price(increment: u8, side: u8, price: u32) -> u64
    ensures { result ≡ displayed_price increment side price }
{
    if increment == 0 {
        return 0;
    }
    let i = increment as u64;
    let p = price as u64;
    if side == 0 {
        return p / i * i;
    }
    (p + (i - 1)) / i * i
}

// The place of a legging order.
pub fn place_of(series: u8, side: u8) -> usize
    ensures { result ≡ place_of series side }
{
    2 * (series as usize) + (side as usize)
}

// The lesser of two quantities.
pub fn lesser(a: u32, b: u32) -> u32
    ensures { result ≡ min a b }
{
    a.min(b)
}

// What an order shows: what is left of it but for its reserve.
pub fn shown_size(o: Regular) -> u32
    ensures { result ≡ shown_size o }
{
    o.quantity.saturating_sub(o.reserve)
}

// A complex order's limit, in 64 bits.
pub fn limit_of(c: Complex) -> i64
    ensures { (result ≡ c.limit) × (nat_abs result ≤ 2147483648) }
{
    i64::from(c.limit)
}

// Sign × price of a leg.
pub fn sign_times_price(side: u8, price: u32) -> i64
    ensures { (result ≡ sign_times side (pos price)) × (nat_abs result ≤ 4294967295) }
{
    if side == 0 {
        return price as i64;
    }
    0 - (price as i64)
}

// What a leg adds to the net: sign × price, by its ratio.
pub fn weighed_price(ratio: u8, side: u8, price: u32) -> i64
    ensures { (result ≡ weighed ratio side price) × (nat_abs result ≤ 1095216660225) }
{
    let p = (ratio as u64) * (price as u64);
    if side == 0 {
        return p as i64;
    }
    0 - (p as i64)
}

// The net of prices a and b at two legs of these ratios and sides.
pub fn net_of(ratio1: u8, side1: u8, a: u32, ratio2: u8, side2: u8, b: u32) -> i64
    ensures { (result ≡ weighed ratio1 side1 a +ℤ weighed ratio2 side2 b) × (nat_abs result ≤ 2190433320450) }
{
    let x = weighed_price(ratio1, side1, a);
    let y = weighed_price(ratio2, side2, b);
    x + y
}

// The net t is within some percent of the net o of the market bests: 100 t ≤ 100 o + percent |o|.
pub fn near_net(percent: u8, o: i64, t: i64) -> bool
    requires { (nat_abs o ≤ 2190433320450) × (nat_abs t ≤ 2190433320450) }
    ensures { result ≡ near_net percent o t }
{
    let x = percent as i64;
    if o < 0 {
        return 100 * t + x * o <= 100 * o;
    }
    100 * t <= 100 * o + x * o
}

// A message's form, by the first kind that has it: an order of kind 9 is of the form of kind 1, one of kind 10 of that of kind 2.
pub fn message_form(m: Message) -> u16
    ensures { result ≡ message_form m }
{
    match m {
        Message::Order(_) => 1,
        Message::TwoLeg(_) => 2,
        Message::Cancel(_) => 3,
        Message::Away(_, _, _) => 4,
        Message::Status(_, _) => 5,
        Message::Sweep => 6,
        Message::Increment(_, _, _) => 7,
        Message::Percent(_, _) => 8,
        Message::LimitedSweep(_) => 9,
    }
}

// A message's length by its kind, 0 for what is no kind of message. It compares in order: of tests for equality a compiler makes a table of lengths.
pub fn length_of(kind: u16) -> u16
    ensures { result ≡ length_of kind }
{
    if kind == 0 {
        return 0;
    }
    if kind <= 1 {
        return 18;
    }
    if kind <= 2 {
        return 21;
    }
    if kind <= 3 {
        return 8;
    }
    if kind <= 4 {
        return 13;
    }
    if kind <= 5 {
        return 6;
    }
    if kind <= 6 {
        return 4;
    }
    if kind <= 7 {
        return 10;
    }
    if kind <= 8 {
        return 9;
    }
    if kind <= 9 {
        return 22;
    }
    if kind <= 10 {
        return 23;
    }
    if kind == 11 {
        return 5;
    }
    0
}

// A cause's place among the causes, from 1 on: its number, but that the last one's is 10.
fn cause_order(cause: Cause) -> u8
    ensures { (if eqb result 9 then 10 else result) ≡ cause_number cause }
{
    match cause {
        Cause::Worse => 1,
        Cause::Unpaired => 2,
        Cause::Executed => 3,
        Cause::Withdrawn => 4,
        Cause::OutOfBand => 5,
        Cause::NotOpen => 6,
        Cause::Replaced => 7,
        Cause::Touched => 8,
        Cause::NoUnit => 9,
    }
}

// A cause's number, in two steps: of numbers that do not rise by one a compiler makes a table (host/legging/tests/read_only.rs).
pub fn cause_number(cause: Cause) -> u8
    ensures { result ≡ cause_number cause }
{
    let n = cause_order(cause);
    if n == 9 {
        return 10;
    }
    n
}

// A refusal's number, by its place among the refusals, for the same reason: after 8 comes 11.
pub fn refusal_number(refusal: Refusal) -> u8
    ensures { result ≡ refusal_number refusal }
{
    let place = refusal as u8;
    if place < 8 {
        return place + 1;
    }
    place + 3
}

// A verdict's number: 0, or its cause's.
pub fn verdict_number(verdict: Verdict) -> u8
    ensures { result ≡ verdict_number verdict }
{
    match verdict {
        Verdict::Stands => 0,
        Verdict::Fails(cause) => cause_number(cause),
    }
}

// What tells why a message's bytes are refused: the refusal, or its number.
pub trait Refuses {
    // Its number.
    ghost number_of: { Self → ℕ };

    // Its number.
    fn refused_with(self) -> u8
        ensures { result ≡ number_of self };
}

impl Refuses for Refusal {
    ghost number_of = { refusal_number };

    // The refusal's number.
    fn refused_with(self) -> u8 {
        refusal_number(self)
    }
}

impl Refuses for u8 {
    ghost number_of = { λ x. x };

    // The number itself.
    fn refused_with(self) -> u8 {
        self
    }
}

// The refusal, 1 to 4 or 14, that a message's bytes meet; 0 if none.
pub fn decoded_number<E: Refuses>(decoded: Result<Message, E>) -> u8
    ensures { result ≡ decoded_number E.number_of decoded }
{
    match decoded {
        Ok(_) => 0,
        Err(refusal) => refusal.refused_with(),
    }
}

// a is strictly better than b to sell: lower, and any price is better than none.
fn is_lower(a: u64, b: u64) -> bool
    ensures { result ≡ better sell a b }
{
    if a == 0 {
        return false;
    }
    if b == 0 {
        return true;
    }
    a < b
}

// a is strictly better than b at this side; any price is better than none. Both comparisons are made, so that the side only selects.
pub fn is_better_wide(side: u8, a: u64, b: u64) -> bool
    ensures { result ≡ better side a b }
{
    let higher = b < a;
    let lower = is_lower(a, b);
    if side == 0 {
        return higher;
    }
    lower
}

// The same of two prices.
pub fn is_better(side: u8, a: u32, b: u32) -> bool
    ensures { result ≡ better side a b }
{
    is_better_wide(side, u64::from(a), u64::from(b))
}

// The better of two prices.
pub fn better_of(side: u8, a: u32, b: u32) -> u32
    ensures { result ≡ better_of side a b }
{
    if is_better(side, a, b) {
        return a;
    }
    b
}

// A price p of this side and a price q of the other side cross or are equal.
pub fn reaches_price(side: u8, p: u32, q: u32) -> bool
    ensures { result ≡ reaches side p q }
{
    if side == 0 {
        return q <= p;
    }
    p <= q
}

// A number is one of 1 to the highest.
fn is_up_to(highest: u32, n: u32) -> bool
    ensures { result ≡ within 1 highest n }
{
    if n == 0 {
        return false;
    }
    n <= highest
}

// A number is a price: 1 to 100000.
pub fn is_price(n: u32) -> bool
    ensures { result ≡ is_price n }
{
    is_up_to(100000, n)
}

// A number is a quantity: 1 to 10000.
pub fn is_quantity(n: u32) -> bool
    ensures { result ≡ is_quantity n }
{
    is_up_to(10000, n)
}

// A number is a ratio: 1 to 3.
pub fn is_ratio(n: u8) -> bool
    ensures { result ≡ is_ratio n }
{
    is_up_to(3, u32::from(n))
}

// A number is an increment: 1, 5 or 10.
pub fn is_increment(n: u8) -> bool
    ensures { result ≡ is_increment n }
{
    if n == 1 {
        return true;
    }
    if n == 5 {
        return true;
    }
    n == 10
}

// A complex order is of kind 2; every other one is of kind 10.
pub fn is_one_to_one(c: Complex) -> bool
    ensures { result ≡ one_to_one c }
{
    if c.ratio1 != 1 {
        return false;
    }
    c.ratio2 == 1
}

// q less k, and no less than 0.
pub fn less(q: u32, k: u32) -> u32
    ensures { result ≡ q - k }
{
    q.saturating_sub(k)
}
