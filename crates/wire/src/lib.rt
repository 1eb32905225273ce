// Bytes in: little-endian numbers, the fields of messages, and their ranges.
#![tactic(auto)]

ghost use Rattle.std.specs.Prelude.{◌≡◌, not, ◌&&◌, ◌+◌, ◌-◌, ◌≤◌, ◌<◌, eqb, length};
ghost use Rattle.rules.specs.Words.{within, is_series, is_side, is_status, is_away, is_limit};
ghost use Rattle.rules.specs.Settings.{is_increment};
ghost use Rattle.rules.specs.Bytes.{u8_at, u16_at, u32_at, as_signed};
ghost use Rattle.rules.specs.Messages.{order_at, two_leg_at};
ghost use Rattle.rules.specs.Refusals.{regular_in_range, two_leg_in_range, complex_in_range};

use rules::{Complex, Regular};

// Reading -------------------------------------------------------------------------------------

// The number at a position, little-endian. A byte past the end of `s` is read as 0.
pub fn u8_at(s: &[u8], at: usize) -> u8
    ensures { result ≡ u8_at s.now at }
{
    if at < s.len() { s[at] } else { 0 }
}

// The number of 16 bits at a position; a byte past the end of `s` is read as 0.
pub fn u16_at(s: &[u8], at: usize) -> u16
    ensures { result ≡ u16_at s.now at }
{
    if s.len() <= at {
        return 0;
    }
    u16::from_le_bytes([u8_at(s, at), u8_at(s, at + 1)])
}

// The number of 32 bits at a position; a byte past the end of `s` is read as 0.
pub fn u32_at(s: &[u8], at: usize) -> u32
    ensures { result ≡ u32_at s.now at }
{
    if s.len() <= at {
        return 0;
    }
    u32::from_le_bytes([
        u8_at(s, at),
        u8_at(s, at + 1),
        u8_at(s, at + 2),
        u8_at(s, at + 3),
    ])
}

// The signed number whose 32 bits, in two's complement, are `x`.
pub fn as_signed(x: u32) -> i32
    ensures { result ≡ as_signed x }
{
    x.cast_signed()
}

// The same numbers where the bytes are long enough to have them, with no test of the length.
pub fn byte_at(s: &[u8], at: usize) -> u8
    requires { at < length s.now }
    ensures { result ≡ u8_at s.now at }
{
    s[at]
}

// The number of 16 bits at a position that `s` has.
pub fn half_at(s: &[u8], at: usize) -> u16
    requires { at + 2 ≤ length s.now }
    ensures { result ≡ u16_at s.now at }
{
    u16::from_le_bytes([s[at], s[at + 1]])
}

// The number of 32 bits at a position that `s` has.
pub fn word_at(s: &[u8], at: usize) -> u32
    requires { at + 4 ≤ length s.now }
    ensures { result ≡ u32_at s.now at }
{
    u32::from_le_bytes([s[at], s[at + 1], s[at + 2], s[at + 3]])
}

// A message -----------------------------------------------------------------------------------

// A limit goes as far as `far` on both sides of 0.
fn is_limit(far: u32, n: i32) -> bool
    ensures { result ≡ is_limit far n }
{
    n.unsigned_abs() <= far
}

// An order's fields are in their ranges; that its price is a multiple of the increment in force is asked of the venue.
pub fn regular_in_range(o: Regular) -> bool
    ensures { result ≡ regular_in_range o }
{
    if o.id == 0 {
        return false;
    }
    if 7 < o.series {
        return false;
    }
    if 1 < o.side {
        return false;
    }
    if !arithmetic::is_price(o.price) {
        return false;
    }
    if !arithmetic::is_quantity(o.quantity) {
        return false;
    }
    if o.display == 0 {
        return false;
    }
    o.display <= o.quantity
}

// A complex order's legs are in their ranges, and in two series.
fn legs_in_range(c: Complex) -> bool
    ensures { result ≡ (is_series c.series1 && is_side c.side1 && is_series c.series2 && is_side c.side2 && not (eqb c.series1 c.series2)) }
{
    if 7 < c.series1 {
        return false;
    }
    if 1 < c.side1 {
        return false;
    }
    if 7 < c.series2 {
        return false;
    }
    if 1 < c.side2 {
        return false;
    }
    c.series1 != c.series2
}

// A complex order's fields are in their ranges, its limit as far as `far`.
pub fn two_leg_in_range(far: u32, c: Complex) -> bool
    ensures { result ≡ two_leg_in_range far c }
{
    if c.id == 0 {
        return false;
    }
    if !legs_in_range(c) {
        return false;
    }
    if 1 < c.class {
        return false;
    }
    if !is_limit(far, c.limit) {
        return false;
    }
    if !arithmetic::is_quantity(c.quantity) {
        return false;
    }
    if !arithmetic::is_ratio(c.ratio1) {
        return false;
    }
    arithmetic::is_ratio(c.ratio2)
}

// A complex order may rest: one of kind 2, or one of kind 10 whose ratios differ.
pub fn complex_in_range(c: Complex) -> bool
    ensures { result ≡ complex_in_range c }
{
    if arithmetic::is_one_to_one(c) {
        return two_leg_in_range(200000, c);
    }
    if c.ratio1 == c.ratio2 {
        return false;
    }
    two_leg_in_range(600000, c)
}

// The fields of away prices are in their ranges.
pub fn away_in_range(series: u8, bid: u32, offer: u32) -> bool
    ensures { result ≡ (is_series series && is_away bid && is_away offer) }
{
    if 7 < series {
        return false;
    }
    if 100000 < bid {
        return false;
    }
    offer <= 100000
}

// The fields of a status are in their ranges.
pub fn status_in_range(series: u8, status: u8) -> bool
    ensures { result ≡ (is_series series && is_status status) }
{
    if 7 < series {
        return false;
    }
    status <= 2
}

// The fields of an increment are in their ranges.
pub fn increment_in_range(series: u8, increment: u8) -> bool
    ensures { result ≡ (is_series series && is_increment increment) }
{
    if 7 < series {
        return false;
    }
    arithmetic::is_increment(increment)
}

// A limited sweep looks at 1 to 32 orders.
pub fn sweep_in_range(n: u8) -> bool
    ensures { result ≡ within 1 32 n }
{
    (1..=32).contains(&n)
}

// The order at the front of `s`, which shows `display` of its quantity.
pub fn order_at(s: &[u8], display: u32) -> Regular
    requires { 18 ≤ length s.now }
    ensures { result ≡ order_at display s.now }
{
    let quantity = word_at(s, 14);
    Regular {
        id: word_at(s, 4),
        series: byte_at(s, 8),
        side: byte_at(s, 9),
        price: word_at(s, 10),
        quantity,
        display,
        // 0 where more is shown than there is, which is out of range
        reserve: arithmetic::less(quantity, display),
    }
}

// The complex order at the front of `s`, of these ratios.
pub fn two_leg_at(s: &[u8], ratio1: u8, ratio2: u8) -> Complex
    requires { 21 ≤ length s.now }
    ensures { result ≡ two_leg_at s.now ratio1 ratio2 }
{
    Complex {
        id: word_at(s, 4),
        series1: byte_at(s, 8),
        side1: byte_at(s, 9),
        series2: byte_at(s, 10),
        side2: byte_at(s, 11),
        class: byte_at(s, 12),
        limit: as_signed(word_at(s, 13)),
        quantity: word_at(s, 17),
        ratio1,
        ratio2,
    }
}
