// The test by which legging orders stand, and settling.
#![tactic(auto)]

ghost use Rattle.std.specs.Prelude.{◌≡◌, true, not, ℕ, ◌<◌, eqb, get_or};
ghost use Rattle.rules.specs.Step.{mask};
ghost use Rattle.rules.specs.Words.{no_legging};
ghost use Rattle.rules.specs.Settings.{increment};
ghost use Rattle.rules.specs.Prices.{better, displayed_price};
ghost use Rattle.rules.specs.Removal.{remove};
ghost use Rattle.rules.specs.Standing.{other_clear, pairs, verdict_of, verdict, verdict_number, settle};
ghost use Rattle.rules.specs.Generation.{others_stand};
ghost use Rattle.records.specs.Seen.{seen};
ghost use Rattle.records.specs.Stage.{stage, ◌does◌};
ghost use Rattle.places.specs.Layout.{legging_in, venue_of, SameCounts, Right};
ghost use Rattle.removal.specs.Causes.{cause_at};
ghost use Rattle.settling.specs.Parts.{other_taken};
ghost use Rattle.levels.specs.Requirements.{TakenReady, GridReady, GridPlaceReady, SidesReady};
ghost use Rattle.places.specs.Requirements.{IncrementReady};

use arithmetic::limit_of;
use levels::{LegSides, TakenLevels};
use places::{Level, Numbers};
use rules::{Cause, Complex, Legging, Verdict};

// A price p at side d of series s, displayed.
pub fn displayed_in_series(numbers: &Numbers, s: u8, d: u8, p: u32) -> u64
    requires { IncrementReady numbers.now s }
    ensures { result ≡ displayed_price (increment (venue_of numbers.now) s) d p }
{
    arithmetic::displayed_price(prices::increment_of(numbers, s), d, p)
}

// A price p at side d of series s, displayed, is no worse than best, the best regular of its side.
pub fn displayed_no_worse(numbers: &Numbers, best: u32, s: u8, d: u8, p: u32) -> bool
    requires { IncrementReady numbers.now s }
    ensures { result ≡ not (better d best (displayed_price (increment (venue_of numbers.now) s) d p)) }
{
    !arithmetic::is_better_wide(d, u64::from(best), displayed_in_series(numbers, s, d, p))
}

// The level that the leg of c takes that is not in series s.
#[tactic(auto, unfolding(crate::specs::Parts::other_taken))]
pub fn other_level(taken: TakenLevels, c: Complex, s: u8) -> Level
    ensures { result ≡ other_taken taken c s }
{
    if c.series1 == s {
        return taken.second;
    }
    taken.first
}

// The clear price of that leg.
pub fn other_clear(numbers: &Numbers, taken: TakenLevels, c: Complex, s: u8) -> u32
    requires { TakenReady numbers.now taken c }
    ensures { result ≡ other_clear (venue_of numbers.now) c s }
{
    let other = prices::other_leg(c, s);
    let best = other_level(taken, c, s);
    prices::clear_price(
        numbers,
        best.price,
        other.series,
        arithmetic::opposite_of(other.side),
    )
}

// The other leg of c has a clear price, its net with the legging order's is no more than N, and its size is enough.
pub fn can_pair(numbers: &Numbers, taken: TakenLevels, c: Complex, s: u8, d: u8, l: Legging) -> bool
    requires { TakenReady numbers.now taken c }
    ensures { result ≡ pairs (venue_of numbers.now) c s d l.price l.quantity }
{
    let clear = other_clear(numbers, taken, c, s);
    if clear == 0 {
        return false;
    }
    let other = prices::other_leg(c, s);
    let net = arithmetic::net_of(1, d, l.price, 1, other.side, clear);
    let limit = limit_of(c);
    if net <= limit {
        let best = other_level(taken, c, s);
        return u64::from(l.quantity) <= best.size;
    }
    false
}

// The test of a legging order of c at side d of series s: of the causes that apply, the first of 1, 5, 2, 6.
pub fn test_order(
    numbers: &Numbers,
    sides: LegSides,
    c: Complex,
    s: u8,
    d: u8,
    l: Legging,
) -> Verdict
    requires { SidesReady numbers.now sides c s d }
    ensures { result ≡ verdict_of (venue_of numbers.now) c s d l }
{
    if !displayed_no_worse(numbers, sides.own, s, d, l.price) {
        return Verdict::Fails(Cause::Worse);
    }
    let taken = sides.taken;
    if !prices::in_band(numbers, taken, c, limit_of(c)) {
        return Verdict::Fails(Cause::OutOfBand);
    }
    if !can_pair(numbers, taken, c, s, d, l) {
        return Verdict::Fails(Cause::Unpaired);
    }
    if !prices::both_open(numbers, c) {
        return Verdict::Fails(Cause::NotOpen);
    }
    Verdict::Stands
}

// The test of what stands at place n.
pub fn judge(numbers: &Numbers, g: [[Level; 2]; 8], n: usize) -> Verdict
    requires { GridPlaceReady numbers.now g n }
    ensures { result ≡ verdict (venue_of numbers.now) n (get_or (venue_of numbers.now).legging n no_legging) }
{
    let l = places::legging_at(numbers, n);
    if l.quantity == 0 {
        return Verdict::Stands;
    }
    let c = prices::parent_of(numbers, l);
    let s = (n / 2) as u8;
    let d = (n % 2) as u8;
    let sides = prices::sides_of(g, c, s, d);
    test_order(numbers, sides, c, s, d, l)
}

// The number of each place's verdict, by 4 bits, the lowest that of place 0; that of a free place is 0.
fn verdicts(numbers: &Numbers, g: [[Level; 2]; 8]) -> u64
    requires { GridReady numbers.now g }
    ensures { (n : ℕ) → n < 16 → cause_at result n ≡ verdict_number (verdict (venue_of numbers.now) n (legging_in numbers.now n)) }
{
    let mut causes: u64 = 0;
    for n in (0..16).rev() {
        causes *= 16;
        let l = places::legging_at(numbers, n);
        if l.quantity == 0 {
            continue;
        }
        causes += u64::from(arithmetic::verdict_number(judge(numbers, g, n)));
    }
    causes
}

// No legging order stands.
pub fn none_stands(numbers: &Numbers) -> bool
    requires { Right numbers.now }
    ensures { result ≡ eqb (mask (venue_of numbers.now).legging) 0 }
{
    places::mask_of(numbers) == 0
}

// All legging orders are tested against the same state, and the failures go together. The grid is made only where some legging order stands.
fn remove_failing(numbers: &mut Numbers, out: &mut [u8], at: usize) -> usize
    requires { Right numbers.old }
    ensures result_after { stage (venue_of numbers.new) out.new result ≡ seen out.old at does remove (verdict (venue_of numbers.old)) (venue_of numbers.old) }
    ensures counts { SameCounts numbers.old numbers.new }
{
    if none_stands(numbers) {
        return at;
    }
    let g = levels::levels(numbers);
    let causes = verdicts(numbers, g);
    if causes == 0 {
        return at;
    }
    removal::remove_by_causes(numbers, causes, out, at)
}

// Each order shows again, and then the legging orders are tested.
pub fn settle_all(numbers: &mut Numbers, out: &mut [u8], at: usize) -> usize
    requires { Right numbers.old }
    ensures result_after { stage (venue_of numbers.new) out.new result ≡ seen out.old at does settle (venue_of numbers.old) }
    ensures counts { SameCounts numbers.old numbers.new }
{
    levels::show_again(numbers);
    remove_failing(numbers, out, at)
}

// Every legging order but the one at place m passes its test.
pub fn others_stand(numbers: &Numbers, g: [[Level; 2]; 8], m: usize) -> bool
    requires { GridReady numbers.now g }
    ensures { result ≡ others_stand (venue_of numbers.now) m 0 (venue_of numbers.now).legging }
{
    for n in 0..16 {
        if n == m {
            continue;
        }
        let l = places::legging_at(numbers, n);
        if l.quantity == 0 {
            continue;
        }
        let Verdict::Stands = judge(numbers, g, n) else {
            return false;
        };
    }
    true
}
