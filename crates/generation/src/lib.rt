// Generation of legging orders.
#![tactic(auto)]

ghost use Rattle.std.specs.Prelude.{◌≡◌, ◌≤◌, ◌<◌, min, nat_abs, length};
ghost use Rattle.rules.specs.Words.{sign_times, legging_at};
ghost use Rattle.rules.specs.Settings.{increment};
ghost use Rattle.rules.specs.Prices.{displayed_price};
ghost use Rattle.rules.specs.Generation.{as_price, generations_of, gives_way, placed, others_stand, under_ceiling, generate_leg, generate};
ghost use Rattle.records.specs.Seen.{seen};
ghost use Rattle.records.specs.Stage.{stage, ◌does◌};
ghost use Rattle.places.specs.Layout.{size, venue_of, Figured, SameCounts, Right};
ghost use Rattle.settling.specs.Parts.{other_taken};
ghost use Rattle.generation.specs.Parts.{ranged_price, priced_leg, may_generate, price_may_stand, may_stand, planned_leg, made_by};
ghost use Rattle.generation.specs.Requirements.{PlanReady, StandReady, BestPrices};
ghost use Rattle.levels.specs.Requirements.{TakenFigured, TakenSeries};
ghost use Rattle.places.specs.Requirements.{SideReady, IncrementReady, RightPlace};

use arithmetic::limit_of;
use levels::{LegSides, TakenLevels};
use places::Numbers;
use rules::{Cause, Complex, Legging};

// Sign × z for a leg of side d.
fn sign_times(d: u8, z: i64) -> i64
    requires { nat_abs z ≤ 8589934590 }
    ensures { result ≡ sign_times d z }
{
    if d == 0 {
        return z;
    }
    -z
}

// A price; 0 where the number is negative.
fn as_price(z: i64) -> u64
    ensures { result ≡ as_price z }
{
    u64::try_from(z).unwrap_or(0)
}

// A price whose displayed price is from the increment to 100,000; else 0, which is no price in the rules and in every order.
fn ranged(numbers: &Numbers, s: u8, d: u8, p: u64) -> u32
    requires { IncrementReady numbers.now s }
    ensures { result ≡ ranged_price (venue_of numbers.now) s d p }
{
    let increment = prices::increment_of(numbers, s);
    if 100254 < p {
        return 0;
    }
    let price = p as u32;
    let displayed = arithmetic::displayed_price(increment, d, price);
    if displayed < u64::from(increment) {
        return 0;
    }
    if 100000 < displayed {
        return 0;
    }
    price
}

// The price of the leg of c at side d of series s: sign × (N - the other leg's sign × its clear price); 0 where there is none in range.
pub fn leg_price(numbers: &Numbers, taken: TakenLevels, c: Complex, s: u8, d: u8) -> u32
    requires { TakenSeries numbers.now taken c s }
    ensures { result ≡ priced_leg (venue_of numbers.now) c s d }
{
    let clear = settling::other_clear(numbers, taken, c, s);
    if clear == 0 {
        return 0;
    }
    let other = prices::other_leg(c, s);
    let limit = limit_of(c);
    let price = arithmetic::sign_times_price(other.side, clear);
    ranged(numbers, s, d, as_price(sign_times(d, limit - price)))
}

// c is one to one, both its series are open, and N is in band.
fn may_generate(numbers: &Numbers, taken: TakenLevels, c: Complex) -> bool
    requires { TakenFigured numbers.now taken c }
    ensures { result ≡ may_generate (venue_of numbers.now) c }
{
    if !arithmetic::is_one_to_one(c) {
        return false;
    }
    if !prices::both_open(numbers, c) {
        return false;
    }
    prices::in_band(numbers, taken, c, limit_of(c))
}

// A price p at side d of series s is no worse than own, the best regular of its side, and reaches nothing opposite; facing is the best regular there.
fn price_may_stand(numbers: &Numbers, own: u32, facing: u32, s: u8, d: u8, p: u32) -> bool
    requires { BestPrices numbers.now own facing s d }
    ensures { result ≡ price_may_stand (venue_of numbers.now) s d p }
{
    if !settling::displayed_no_worse(numbers, own, s, d, p) {
        return false;
    }
    let f = arithmetic::opposite_of(d);
    if levels::reaches_any(d, p, prices::best_own(numbers, facing, s, f)) {
        return false;
    }
    !levels::reaches_any(d, p, prices::away_price(numbers, s, f))
}

// What stands at side d of series s gives way to c at price p: it is worse, or of class 1 at an equal price while c is of class 0.
pub fn gives_way(numbers: &Numbers, c: Complex, s: u8, d: u8, p: u32) -> bool
    requires { SideReady s d }
    ensures { result ≡ gives_way (venue_of numbers.now) c d p (legging_at (venue_of numbers.now) s d) }
{
    let own = prices::own_price(numbers, s, d);
    if arithmetic::is_better(d, p, own) {
        return true;
    }
    if p != own {
        return false;
    }
    if c.class != 0 {
        return false;
    }
    let holder = prices::parent_of(
        numbers,
        places::legging_at(numbers, arithmetic::place_of(s, d)),
    );
    holder.class == 1
}

// All that is asked of a legging order of c at price p but that the others stand, and the ceiling; c may generate.
fn may_stand(numbers: &Numbers, sides: LegSides, c: Complex, s: u8, d: u8, p: u32) -> bool
    requires { StandReady numbers.now sides c s d }
    ensures { result ≡ may_stand (venue_of numbers.now) c s d p }
{
    if !price_may_stand(numbers, sides.own, sides.facing, s, d, p) {
        return false;
    }
    gives_way(numbers, c, s, d, p)
}

// The lesser of an order's open quantity and the size at the other leg's clear price.
fn leg_quantity(taken: TakenLevels, c: Complex, s: u8) -> u32
    ensures { result ≡ min c.quantity (other_taken taken c s).size }
{
    let best = settling::other_level(taken, c, s);
    u64::from(c.quantity).min(best.size) as u32
}

// With l at place n every other legging order passes its test; the grid is of the regular orders alone. The venue is left as it was.
fn others_stand_with(numbers: &mut Numbers, n: usize, l: Legging) -> bool
    requires { RightPlace numbers.old n }
    ensures value { result ≡ others_stand (placed n l (venue_of numbers.old)) n 0 (placed n l (venue_of numbers.old)).legging }
    ensures kept { venue_of numbers.new ≡ venue_of numbers.old }
    ensures counts { SameCounts numbers.old numbers.new }
{
    let g = levels::levels(numbers);
    let old = places::legging_at(numbers, n);
    place_writes::put_legging(numbers, n, l);
    let stand = settling::others_stand(numbers, g, n);
    place_writes::put_legging(numbers, n, old);
    stand
}

// The legging order of the leg of c at side d of series s, where it may stand; else a free place. c has open quantity, and may generate.
fn plan_leg(numbers: &Numbers, c: Complex, s: u8, d: u8) -> Legging
    requires { PlanReady numbers.now c s d }
    ensures { result ≡ planned_leg (venue_of numbers.now) c s d }
{
    // No `Option`: no legging order is a free place, in the venue's numbers and in `planned_leg`.
    let none = rules::NO_LEGGING;
    let sides = levels::sides_at(numbers, c, s, d);
    let taken = sides.taken;
    let price = leg_price(numbers, taken, c, s, d);
    if price == 0 {
        return none;
    }
    if !may_stand(numbers, sides, c, s, d, price) {
        return none;
    }
    let quantity = leg_quantity(taken, c, s);
    Legging {
        parent: c.id,
        price,
        quantity,
    }
}

// The ceiling allows one more in series s to the message of this number: the oldest of the last 20 is none, or it was 256 messages before or more.
fn is_under_ceiling(numbers: &Numbers, number: u32, s: u8) -> bool
    requires { s < 8 }
    ensures { result ≡ under_ceiling number (generations_of (venue_of numbers.now) s) }
{
    let oldest = places::oldest_at(numbers, usize::from(s));
    if oldest == 0 {
        return true;
    }
    u64::from(oldest) + 256 <= u64::from(number)
}

// The holder of the place goes, and then l is put there and counted in its series.
fn make_leg(
    numbers: &mut Numbers,
    number: u32,
    id: u32,
    s: u8,
    d: u8,
    l: Legging,
    out: &mut [u8],
    at: usize,
) -> usize
    requires { (s < 8) × (d < 2) × (displayed_price (increment (venue_of numbers.old) s) d l.price ≤ 100000) × (Figured numbers.old) }
    ensures result_after { stage (venue_of numbers.new) out.new result ≡ seen out.old at does made_by number id s d l (venue_of numbers.old) }
    ensures counts { SameCounts numbers.old numbers.new }
{
    let displayed = settling::displayed_in_series(numbers, s, d, l.price) as u32;
    let place = arithmetic::place_of(s, d);
    let pos = removal::remove_one(numbers, place, Cause::Replaced, out, at);
    place_writes::put_legging(numbers, place, l);
    place_writes::count_generation(numbers, usize::from(s), number);
    records::emit_generated(out, pos, id, s, d, l.price, displayed, l.quantity)
}

// The legging order of a leg of c, made where every condition holds. Those that no leg changes are tested before.
pub fn generate_leg(
    numbers: &mut Numbers,
    number: u32,
    c: Complex,
    s: u8,
    d: u8,
    out: &mut [u8],
    at: usize,
) -> usize
    requires { PlanReady numbers.old c s d }
    ensures result_after { stage (venue_of numbers.new) out.new result ≡ seen out.old at does generate_leg number c s d (venue_of numbers.old) }
    ensures counts { SameCounts numbers.old numbers.new }
{
    let l = plan_leg(numbers, c, s, d);
    if l.price == 0 {
        return at;
    }
    if !others_stand_with(numbers, arithmetic::place_of(s, d), l) {
        return at;
    }
    if !is_under_ceiling(numbers, number, s) {
        return at;
    }
    make_leg(numbers, number, c.id, s, d, l, out, at)
}

// Generation for the first leg and then the second of the order at place i. No legging order changes whether it may.
pub fn generate_order(
    numbers: &mut Numbers,
    number: u32,
    i: usize,
    out: &mut [u8],
    at: usize,
) -> usize
    requires { Right numbers.old }
    ensures result_after { stage (venue_of numbers.new) out.new result ≡ seen out.old at does generate number i (venue_of numbers.old) }
    ensures counts { SameCounts numbers.old numbers.new }
{
    if places::complexes_used(numbers) <= i {
        return at;
    }
    let c = places::complex_at(numbers, i);
    if c.quantity == 0 {
        return at;
    }
    if !may_generate(numbers, levels::taken_at(numbers, c), c) {
        return at;
    }
    let pos = generate_leg(numbers, number, c, c.series1, c.side1, out, at);
    generate_leg(numbers, number, c, c.series2, c.side2, out, pos)
}
