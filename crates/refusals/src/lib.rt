// Which refusal a message gets whose fields are in range, or none.
#![tactic(auto)]

ghost use Rattle.std.specs.Prelude.{◌≡◌, not, ◌&&◌, ◌||◌, ltb, eqb, length, ◌<◌};
ghost use Rattle.rules.specs.declared.Message.TheVariants.{Order, TwoLeg};
ghost use Rattle.rules.specs.Base.{held, all};
ghost use Rattle.rules.specs.Complex.{rests_regular, rests_complex};
ghost use Rattle.rules.specs.Refusals.{refused_number, off_increment, idle, refusal_of};
ghost use Rattle.places.specs.Layout.{size, venue_of, Dense};
ghost use Rattle.refusals.specs.Editions.{edition_refusal};
ghost use Rattle.places.specs.Requirements.{IncrementReady};
ghost use Rattle.refusals.specs.Requirements.{OrderInRange, ComplexInRange};

use places::Numbers;
use rules::{Complex, Refusal, Regular};

// Refusals 4 and 5 to 8: of orders --------------------------------------------------------------

// An order's price is off its series' increment in force.
fn off_increment(numbers: &Numbers, o: Regular) -> bool
    requires { IncrementReady numbers.now o.series }
    ensures { result ≡ off_increment (venue_of numbers.now) (Order o) }
{
    let increment = prices::increment_of(numbers, o.series);
    o.price % u32::from(increment) != 0
}

// The refusal of an order with its fields in their ranges, if it meets one.
pub fn order_refusal(numbers: &Numbers, o: Regular) -> Result<(), Refusal>
    requires { OrderInRange numbers.now o }
    ensures { refused_number result ≡ refusal_of (venue_of numbers.now) (Order o) }
{
    if off_increment(numbers, o) {
        return Err(Refusal::OutOfRange);
    }
    if o.id <= places::last_id(numbers) {
        return Err(Refusal::IdTooLow);
    }
    if prices::status_of(numbers, o.series) == 0 {
        return Err(Refusal::OnClosed);
    }
    if 128 <= places::regulars_used(numbers) {
        return Err(Refusal::Full);
    }
    Ok(())
}

// The refusal of a complex order with its fields in their ranges, if it meets one.
pub fn complex_refusal(numbers: &Numbers, c: Complex) -> Result<(), Refusal>
    requires { ComplexInRange numbers.now c }
    ensures { refused_number result ≡ refusal_of (venue_of numbers.now) (TwoLeg c) }
{
    if c.id <= places::last_id(numbers) {
        return Err(Refusal::IdTooLow);
    }
    if prices::any_closed(numbers, c) {
        return Err(Refusal::OnClosed);
    }
    if 32 <= places::complexes_used(numbers) {
        return Err(Refusal::Full);
    }
    Ok(())
}

// A complex order with an id rests.
fn complex_rests(numbers: &Numbers, id: u32) -> bool
    ensures { result ≡ rests_complex (venue_of numbers.now) id }
{
    book::complex_place(numbers, id).is_some()
}

// An order with an id rests, in one book or the other.
pub fn rests(numbers: &Numbers, id: u32) -> bool
    requires { Dense numbers.now }
    ensures { result ≡ (rests_regular (venue_of numbers.now) id || rests_complex (venue_of numbers.now) id) }
{
    if book::regular_place(numbers, id).is_some() {
        return true;
    }
    complex_rests(numbers, id)
}

// Refusals 11 to 13: of editions ----------------------------------------------------------------

// An edition is above each that is kept.
fn is_above(numbers: &Numbers, edition: u32) -> bool
    ensures { result ≡ all (λ k. ltb k.edition edition) (venue_of numbers.now).editions }
{
    for i in 0..32 {
        let k = places::edition_at(numbers, i);
        if edition <= k.edition {
            return false;
        }
    }
    true
}

// A regular order rests in a series.
fn rests_in(o: Regular, s: u8) -> bool
    ensures { result ≡ (held o.quantity && eqb o.series s) }
{
    if o.quantity == 0 {
        return false;
    }
    o.series == s
}

// No regular order rests in a series.
fn no_order_in(numbers: &Numbers, s: u8) -> bool
    ensures { result ≡ all (λ o. not (held o.quantity && eqb o.series s)) (venue_of numbers.now).regular }
{
    let n = places::regulars_used(numbers);
    for i in 0..n {
        let o = places::regular_at(numbers, i);
        if rests_in(o, s) {
            return false;
        }
    }
    true
}

// A complex order rests with a leg in a series.
fn has_leg_in(c: Complex, s: u8) -> bool
    ensures { result ≡ (held c.quantity && (eqb c.series1 s || eqb c.series2 s)) }
{
    if c.quantity == 0 {
        return false;
    }
    if c.series1 == s {
        return true;
    }
    c.series2 == s
}

// No resting complex order has a leg in a series. A pass that took its table and its test as closures would have to say more of both than this loop does.
fn no_leg_in(numbers: &Numbers, s: u8) -> bool
    ensures { result ≡ all (λ c. not (held c.quantity && (eqb c.series1 s || eqb c.series2 s))) (venue_of numbers.now).complex }
{
    let n = places::complexes_used(numbers);
    for i in 0..n {
        let c = places::complex_at(numbers, i);
        if has_leg_in(c, s) {
            return false;
        }
    }
    true
}

// A series is closed, and no order or leg rests in it.
pub fn is_idle(numbers: &Numbers, s: u8) -> bool
    requires { s < 8 }
    ensures { result ≡ idle (venue_of numbers.now) s }
{
    if prices::status_of(numbers, s) != 0 {
        return false;
    }
    if !no_order_in(numbers, s) {
        return false;
    }
    no_leg_in(numbers, s)
}

// The first of 11 to 13 that a new edition meets; `used` where its figure is the increment of a series in use.
pub fn edition_refusal(numbers: &Numbers, edition: u32, used: bool) -> Result<(), Refusal>
    ensures { refused_number result ≡ edition_refusal (venue_of numbers.now) edition used }
{
    if !is_above(numbers, edition) {
        return Err(Refusal::EditionTooLow);
    }
    if used {
        return Err(Refusal::InUse);
    }
    if 32 <= places::free_edition(numbers) {
        return Err(Refusal::NoEditionLeft);
    }
    Ok(())
}
