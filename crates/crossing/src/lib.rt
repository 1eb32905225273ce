// Complex orders with one another: the cross, and the touch of legging orders.
#![tactic(auto)]

ghost use Rattle.std.specs.Prelude.{◌≡◌, pos, if◌then◌else◌};
ghost use Rattle.rules.specs.declared.Cause.TheVariants.{Touched, NoUnit};
ghost use Rattle.rules.specs.Base.{first};
ghost use Rattle.rules.specs.Words.{complex_at};
ghost use Rattle.rules.specs.Effects.{repeat};
ghost use Rattle.rules.specs.Complex.{crosses, cross, cross_turn, touches, fills_unit, touch};
ghost use Rattle.records.specs.Seen.{seen};
ghost use Rattle.records.specs.Stage.{stage, ◌does◌};
ghost use Rattle.places.specs.Layout.{venue_of, SameCounts};
ghost use Rattle.levels.specs.Requirements.{TakenReady};
ghost use Rattle.places.specs.Requirements.{ComplexesReady, RightComplex};

use arithmetic::limit_of;
use levels::TakenLevels;
use places::Numbers;
use rules::{Cause, Complex};

// The orders at places i and j cross for k units at the limit of the latter; the legging orders of the taker go, then the maker's.
pub fn cross(numbers: &mut Numbers, i: usize, j: usize, k: u32, out: &mut [u8], at: usize) -> usize
    requires { ComplexesReady numbers.old i j }
    ensures result_after { stage (venue_of numbers.new) out.new result ≡ seen out.old at does cross i j k (venue_of numbers.old) }
    ensures counts { SameCounts numbers.old numbers.new }
{
    let c = places::complex_at(numbers, i);
    let m = places::complex_at(numbers, j);
    place_writes::fill_complex(numbers, i, k);
    place_writes::fill_complex(numbers, j, k);
    let told = records::emit_crossed(out, at, c.id, m.id, cross_makers::net_against(m), k);
    let gone = removal::remove_of(numbers, c.id, Cause::Executed, out, told);
    removal::remove_of(numbers, m.id, Cause::Executed, out, gone)
}

// The order at place i crosses while there is one that it crosses with.
pub fn cross_all(numbers: &mut Numbers, i: usize, out: &mut [u8], at: usize) -> usize
    requires { RightComplex numbers.old i }
    ensures result_after { stage (venue_of numbers.new) out.new result ≡ seen out.old at does repeat (complex_at (venue_of numbers.old) i).quantity (cross_turn i) (venue_of numbers.old) }
    ensures counts { SameCounts numbers.old numbers.new }
{
    let taker = places::complex_at(numbers, i);
    let mut pos = at;
    for _ in 0..taker.quantity {
        let c = places::complex_at(numbers, i);
        if c.quantity == 0 {
            return pos;
        }
        let found = cross_makers::first_cross(numbers, c);
        let Some((j, m)) = found else {
            return pos;
        };
        pos = cross(numbers, i, j, c.quantity.min(m.quantity), out, pos);
    }
    pos
}

// The best own prices that c would take net to its limit or less.
fn can_touch(numbers: &Numbers, taken: TakenLevels, c: Complex) -> bool
    requires { TakenReady numbers.now taken c }
    ensures { result ≡ touches (venue_of numbers.now) c }
{
    if c.quantity == 0 {
        return false;
    }
    let one = taken.first;
    let first = prices::best_own(
        numbers,
        one.price,
        c.series1,
        arithmetic::opposite_of(c.side1),
    );
    if first == 0 {
        return false;
    }
    let two = taken.second;
    let second = prices::best_own(
        numbers,
        two.price,
        c.series2,
        arithmetic::opposite_of(c.side2),
    );
    if second == 0 {
        return false;
    }
    let net = arithmetic::net_of(c.ratio1, c.side1, first, c.ratio2, c.side2, second);
    net <= limit_of(c)
}

// The sizes at the best own prices that c would take fill a unit of it.
fn fills_unit(numbers: &Numbers, taken: TakenLevels, c: Complex) -> bool
    requires { TakenReady numbers.now taken c }
    ensures { result ≡ fills_unit (venue_of numbers.now) c }
{
    let one = taken.first;
    let first = prices::own_size(numbers, one, c.series1, arithmetic::opposite_of(c.side1));
    if first < u64::from(c.ratio1) {
        return false;
    }
    let two = taken.second;
    let second = prices::own_size(numbers, two, c.series2, arithmetic::opposite_of(c.side2));
    u64::from(c.ratio2) <= second
}

// Why the legging orders that c touches go.
fn touch_cause(numbers: &Numbers, taken: TakenLevels, c: Complex) -> Cause
    requires { TakenReady numbers.now taken c }
    ensures { result ≡ (if fills_unit (venue_of numbers.now) c then Touched else NoUnit) }
{
    if fills_unit(numbers, taken, c) {
        return Cause::Touched;
    }
    Cause::NoUnit
}

// The legging orders at the two sides that the order at place i would take go, where it touches.
pub fn touch(numbers: &mut Numbers, i: usize, out: &mut [u8], at: usize) -> usize
    requires { RightComplex numbers.old i }
    ensures result_after { stage (venue_of numbers.new) out.new result ≡ seen out.old at does touch i (venue_of numbers.old) }
    ensures counts { SameCounts numbers.old numbers.new }
{
    let c = places::complex_at(numbers, i);
    let taken = levels::taken_at(numbers, c);
    if !can_touch(numbers, taken, c) {
        return at;
    }
    let cause = touch_cause(numbers, taken, c);
    let one = arithmetic::place_of(c.series1, arithmetic::opposite_of(c.side1));
    let two = arithmetic::place_of(c.series2, arithmetic::opposite_of(c.side2));
    removal::remove_at(numbers, one, two, cause, out, at)
}
