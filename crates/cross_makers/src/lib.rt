// Complex orders with one another: who crosses with whom, and who first.
#![tactic(auto)]

ghost use Rattle.std.specs.Prelude.{◌≡◌, ◌&&◌, ◌||◌, ◌≤◌, ◌<◌, eqb, ℤ, pos, nat_abs, neg_ℤ, ◌+ℤ◌, if◌then◌else◌};
ghost use Rattle.std.specs.Int.Signed.{le_z};
ghost use Rattle.rules.specs.declared.Venue.{Venue};
ghost use Rattle.rules.specs.Base.{ranked, first};
ghost use Rattle.rules.specs.Words.{opposite};
ghost use Rattle.rules.specs.Complex.{reversed, respects_legs, crosses, limit_then_id, cross};
ghost use Rattle.places.specs.Layout.{venue_of};
ghost use Rattle.levels.specs.Grid.{TakenOf};
ghost use Rattle.cross_makers.specs.Picks.{picked_of};
ghost use Rattle.levels.specs.Requirements.{LegsReady, LegsPairReady};

use arithmetic::limit_of;
use levels::TakenLevels;
use places::Numbers;
use rules::Complex;

// What an order pays in a cross with m, at m's limit.
pub fn net_against(m: Complex) -> i64
    ensures { (result ≡ neg_ℤ m.limit) × (nat_abs result ≤ 2147483648) }
{
    let n = limit_of(m);
    0 - n
}

// The legs of c stand in series s and t at the sides opposite to d and e, with ratios q and r.
fn legs_face(c: Complex, s: u8, d: u8, q: u8, t: u8, e: u8, r: u8) -> bool
    ensures { result ≡ (eqb c.series1 s && eqb c.side1 (opposite d) && eqb c.ratio1 q && eqb c.series2 t && eqb c.side2 (opposite e) && eqb c.ratio2 r) }
{
    if c.series1 != s {
        return false;
    }
    if c.side1 != arithmetic::opposite_of(d) {
        return false;
    }
    if c.ratio1 != q {
        return false;
    }
    if c.series2 != t {
        return false;
    }
    if c.side2 != arithmetic::opposite_of(e) {
        return false;
    }
    c.ratio2 == r
}

// The same series, and in each the reversed side and the same ratio, whichever leg is named first.
pub fn is_reversed(c: Complex, m: Complex) -> bool
    ensures { result ≡ reversed c m }
{
    if legs_face(
        c, m.series1, m.side1, m.ratio1, m.series2, m.side2, m.ratio2,
    ) {
        return true;
    }
    legs_face(
        c, m.series2, m.side2, m.ratio2, m.series1, m.side1, m.ratio1,
    )
}

// The limits of two orders leave room for a cross.
fn limits_meet(c: Complex, m: Complex) -> bool
    ensures { result ≡ le_z (pos 0) (c.limit +ℤ m.limit) }
{
    let x = limit_of(c);
    let y = limit_of(m);
    0 <= x + y
}

// Dealt at this net, c pays no more than at the best regular prices, where both its legs have one; taken has the levels that they take.
fn respects_legs(taken: TakenLevels, c: Complex, net: i64) -> bool
    ensures { (v : Venue) → TakenOf taken c v.regular → result ≡ respects_legs v c net }
{
    let one = taken.first;
    if one.price == 0 {
        return true;
    }
    let two = taken.second;
    if two.price == 0 {
        return true;
    }
    net <= arithmetic::net_of(c.ratio1, c.side1, one.price, c.ratio2, c.side2, two.price)
}

// The resting order m is a candidate for c.
pub fn can_cross(numbers: &Numbers, c: Complex, m: Complex) -> bool
    requires { LegsPairReady numbers.now c m }
    ensures { result ≡ crosses (venue_of numbers.now) c m }
{
    if m.quantity == 0 {
        return false;
    }
    if !is_reversed(c, m) {
        return false;
    }
    if !limits_meet(c, m) {
        return false;
    }
    let paid = net_against(m);
    let by_taker = levels::taken_at(numbers, c);
    if !prices::in_band(numbers, by_taker, c, paid) {
        return false;
    }
    let limit = limit_of(m);
    let by_maker = levels::taken_at(numbers, m);
    if !prices::in_band(numbers, by_maker, m, limit) {
        return false;
    }
    if !respects_legs(by_taker, c, paid) {
        return false;
    }
    respects_legs(by_maker, m, limit)
}

// a goes before m: the higher limit, then the earlier.
pub fn crosses_before(a: Complex, m: Complex) -> bool
    ensures { result ≡ limit_then_id a m }
{
    let x = a.limit;
    let y = m.limit;
    if y < x {
        return true;
    }
    if x < y {
        return false;
    }
    a.id < m.id
}

// A key is one of two.
fn is_either(key: usize, one: usize, two: usize) -> bool
    ensures { result ≡ (eqb key one || eqb key two) }
{
    if key == one {
        return true;
    }
    key == two
}

// The resting order that c crosses with first. Of the others only those whose legs and ratios have the key are read.
pub fn first_cross(numbers: &Numbers, c: Complex) -> Option<(usize, Complex)>
    requires { LegsReady numbers.now c }
    ensures { picked_of result ≡ first (crosses (venue_of numbers.now) c) limit_then_id (venue_of numbers.now).complex }
{
    let straight = places::facing_key(c.series1, c.side1, c.ratio1, c.series2, c.side2, c.ratio2);
    let turned = places::facing_key(c.series2, c.side2, c.ratio2, c.series1, c.side1, c.ratio1);
    let mut best = None;
    let n = places::complexes_used(numbers);
    for i in (0..n).rev() {
        if !is_either(places::cross_key_at(numbers, i), straight, turned) {
            continue;
        }
        let m = places::complex_at(numbers, i);
        if !can_cross(numbers, c, m) {
            continue;
        }
        best = prices::better(best, i, m, crosses_before);
    }
    best
}
