// Scans of the places in use: who is met or taken first, and where an order rests; and how many legging places are filled.
// Ids rise with the places, so that the first of the places is the earliest, and an id is found by halves.
#![tactic(auto)]

ghost use Rattle.std.specs.Prelude.{◌≡◌};
ghost use Rattle.std.specs.Int.Count.{ones};
ghost use Rattle.rules.specs.Base.{first};
ghost use Rattle.rules.specs.Words.{earlier};
ghost use Rattle.rules.specs.Prices.{shows_for};
ghost use Rattle.rules.specs.Order.{is_met, shown_then_id, price_then_id};
ghost use Rattle.places.specs.Layout.{size, venue_of, Dense, Right};
ghost use Rattle.book.specs.Picks.{pick_of, regular_found, complex_found};
ghost use Rattle.places.specs.Requirements.{RightSeries, RightShown};

use places::Numbers;
use rules::Regular;

// An order shows some size at a price of a side of a series.
fn shows_for(o: Regular, series: u8, side: u8, price: u32) -> bool
    ensures { result ≡ shows_for series side price o }
{
    if arithmetic::shown_size(o) == 0 {
        return false;
    }
    if o.series != series {
        return false;
    }
    if o.side != side {
        return false;
    }
    o.price == price
}

// The earliest regular order that shows size at a price of a side. Only orders with the key of series and side are read whole.
pub fn first_for(numbers: &Numbers, series: u8, side: u8, price: u32) -> Option<(usize, Regular)>
    requires { Right numbers.now }
    ensures { result ≡ pick_of (first (shows_for series side price) earlier (venue_of numbers.now).regular) }
{
    let key = arithmetic::place_of(series, side);
    let n = places::regulars_used(numbers);
    for i in 0..n {
        if places::key_at(numbers, i) != key {
            continue;
        }
        let o = places::regular_at(numbers, i);
        if shows_for(o, series, side, price) {
            return Some((i, o));
        }
    }
    None
}

// The regular order that one of this side and price in a series meets first, where every order shows some size: the earliest at the best price of the
// other side, where this is reached.
fn first_shown(numbers: &Numbers, series: u8, side: u8, price: u32) -> Option<(usize, Regular)>
    requires { RightShown numbers.now series }
    ensures { result ≡ pick_of (first (is_met series side price) price_then_id (venue_of numbers.now).regular) }
{
    let other = arithmetic::opposite_of(side);
    let best = levels::best_regular(numbers, series, other);
    if !levels::reaches_any(side, price, best) {
        return None;
    }
    first_for(numbers, series, other, best)
}

// An order of this side and price in a series meets m, its shown size or its reserve.
fn is_met(m: Regular, series: u8, side: u8, price: u32) -> bool
    ensures { result ≡ is_met series side price m }
{
    if m.quantity == 0 {
        return false;
    }
    if m.series != series {
        return false;
    }
    if m.side != arithmetic::opposite_of(side) {
        return false;
    }
    arithmetic::reaches_price(side, price, m.price)
}

// At one price a goes before m: who shows before who does not, and then the earlier.
fn shows_first(a: Regular, m: Regular) -> bool
    ensures { result ≡ shown_then_id a m }
{
    if arithmetic::shown_size(m) == 0 {
        if arithmetic::shown_size(a) == 0 {
            return a.id < m.id;
        }
        return true;
    }
    if arithmetic::shown_size(a) == 0 {
        return false;
    }
    a.id < m.id
}

// a goes before m: the better price first.
fn ranks_before(a: Regular, m: Regular) -> bool
    ensures { result ≡ price_then_id a m }
{
    if arithmetic::is_better(a.side, a.price, m.price) {
        return true;
    }
    if a.price != m.price {
        return false;
    }
    shows_first(a, m)
}

// The same where some order may show nothing of what is left of it: the first in rank of all that are met.
fn first_ranked(numbers: &Numbers, series: u8, side: u8, price: u32) -> Option<(usize, Regular)>
    ensures { result ≡ pick_of (first (is_met series side price) price_then_id (venue_of numbers.now).regular) }
{
    let key = arithmetic::place_of(series, arithmetic::opposite_of(side));
    let mut best = None;
    let n = places::regulars_used(numbers);
    for i in (0..n).rev() {
        if places::key_at(numbers, i) != key {
            continue;
        }
        let m = places::regular_at(numbers, i);
        if !is_met(m, series, side, price) {
            continue;
        }
        best = prices::better(best, i, m, ranks_before);
    }
    best
}

// The regular order that one of this side and price in a series meets first.
pub fn first_met(numbers: &Numbers, series: u8, side: u8, price: u32) -> Option<(usize, Regular)>
    requires { RightSeries numbers.now series }
    ensures { result ≡ pick_of (first (is_met series side price) price_then_id (venue_of numbers.now).regular) }
{
    if places::none_shows_again(numbers) {
        return first_shown(numbers, series, side, price);
    }
    first_ranked(numbers, series, side, price)
}

// The place of the resting regular order with an id: among the places from `low` to below `high`, where every place is held.
pub fn regular_place(numbers: &Numbers, id: u32) -> Option<usize>
    requires { Dense numbers.now }
    ensures { result ≡ regular_found (venue_of numbers.now) id }
{
    let mut low: usize = 0;
    let mut high = places::regulars_used(numbers);
    // The orders are rows of numbers: there is no slice of them for binary_search.
    while low < high {
        let i = (low + high) / 2;
        let here = places::regular_id(numbers, i);
        if here == id {
            return Some(i);
        }
        if here < id {
            low = i + 1;
            continue;
        }
        high = i;
    }
    None
}

// The place of the resting complex order with an id.
pub fn complex_place(numbers: &Numbers, id: u32) -> Option<usize>
    ensures { result ≡ complex_found (venue_of numbers.now) id }
{
    let n = places::complexes_used(numbers);
    for i in 0..n {
        let c = places::complex_at(numbers, i);
        if prices::is_complex_of(c, id) {
            return Some(i);
        }
    }
    None
}

// The ones of a mask: how many places are filled.
pub fn count_of(mask: u16) -> u8
    ensures { result ≡ ones mask }
{
    u16::count_ones(mask) as u8
}
