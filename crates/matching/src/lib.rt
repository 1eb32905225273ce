// An entering order: whom it meets, turn by turn.
// Each function says in one equation the venue that it leaves and all that it writes: those of its definition.
#![tactic(auto)]

ghost use Rattle.std.specs.Prelude.{◌≡◌, suc, ◌<◌};
ghost use Rattle.rules.specs.Words.{opposite, legging_at};
ghost use Rattle.rules.specs.Effects.{repeat};
ghost use Rattle.rules.specs.Order.{at_once, legging_first, meet_turn, enter_regular};
ghost use Rattle.records.specs.Seen.{seen};
ghost use Rattle.records.specs.Stage.{stage, ◌does◌};
ghost use Rattle.places.specs.Layout.{regulars_used, complexes_used, venue_of, Counts, SameCounts};
ghost use Rattle.matching.specs.Turns.{turn_of, InUse};
ghost use Rattle.places.specs.Requirements.{RightRegular, DenseOrder};

use places::Numbers;
use rules::{Legging, Regular};

// What the order at a place does next.
#[derive(Clone, Copy, Debug, PartialEq, Eq)]
pub enum Plan {
    Ended,
    Hit(Legging, u32),
    Meet(usize, u32),
}

// The order o meets the legging order l before a regular order at price p (0: none).
fn legging_first(o: Regular, l: Legging, p: u32) -> bool
    ensures { result ≡ legging_first o l p }
{
    let own = prices::own_price_of(l);
    if own == 0 {
        return false;
    }
    if !arithmetic::reaches_price(o.side, o.price, own) {
        return false;
    }
    arithmetic::is_better(arithmetic::opposite_of(o.side), own, p)
}

// The legging order that one of a side in a series faces.
fn facing(numbers: &Numbers, series: u8, side: u8) -> Legging
    requires { series < 8 }
    ensures { result ≡ legging_at (venue_of numbers.now) series (opposite side) }
{
    let n = arithmetic::place_of(series, arithmetic::opposite_of(side));
    places::legging_at(numbers, n)
}

// What of the resting order m is traded at once: what it shows; its reserve when that is gone.
fn at_once(m: Regular) -> u32
    ensures { result ≡ at_once m }
{
    let size = arithmetic::shown_size(m);
    if size == 0 {
        return m.quantity;
    }
    size
}

// What the order at place i does next.
fn decide(numbers: &Numbers, i: usize) -> Plan
    requires { RightRegular numbers.now i }
    ensures { (turn_of i (venue_of numbers.now) result ≡ meet_turn i (venue_of numbers.now)) × InUse (regulars_used numbers.now) result }
{
    let o = places::regular_at(numbers, i);
    if o.quantity == 0 {
        return Plan::Ended;
    }
    let l = facing(numbers, o.series, o.side);
    let found = book::first_met(numbers, o.series, o.side, o.price);
    match found {
        None => {
            if legging_first(o, l, 0) {
                return Plan::Hit(l, o.quantity.min(l.quantity));
            }
            Plan::Ended
        }
        Some((j, m)) => {
            if legging_first(o, l, m.price) {
                return Plan::Hit(l, o.quantity.min(l.quantity));
            }
            Plan::Meet(j, o.quantity.min(at_once(m)))
        }
    }
}

// The order at place i meets the other side, in at most `quantity` turns.
pub fn meet_all(numbers: &mut Numbers, i: usize, quantity: u32, out: &mut [u8], at: usize) -> usize
    requires { RightRegular numbers.old i }
    ensures result_after { stage (venue_of numbers.new) out.new result ≡ seen out.old at does repeat quantity (meet_turn i) (venue_of numbers.old) }
    ensures counts { SameCounts numbers.old numbers.new }
{
    let mut pos = at;
    for _ in 0..quantity {
        let plan = decide(numbers, i);
        match plan {
            Plan::Ended => {
                return pos;
            }
            Plan::Hit(l, k) => {
                pos = trades::hit(numbers, i, l, k, out, pos);
                continue;
            }
            Plan::Meet(j, k) => {
                pos = trades::meet(numbers, i, j, k, out, pos);
                continue;
            }
        }
    }
    pos
}

// The order is given a place and meets the other side there. Every place in use is held, so the place after them is the first free one.
pub fn enter_regular(numbers: &mut Numbers, o: Regular, out: &mut [u8], at: usize) -> usize
    requires { DenseOrder numbers.old o }
    ensures result_after { stage (venue_of numbers.new) out.new result ≡ seen out.old at does enter_regular o (venue_of numbers.old) }
    ensures counts { Counts (suc (regulars_used numbers.old)) (complexes_used numbers.old) numbers.old numbers.new }
{
    let i = places::regulars_used(numbers);
    levels::add_order(numbers, o);
    meet_all(numbers, i, o.quantity, out, at)
}
