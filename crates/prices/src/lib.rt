// What is read of a side: own, clear and market prices, the band, the increment; and of a complex order its legs, its parent and whether its series are open.
#![tactic(auto)]

ghost use Rattle.std.specs.Prelude.{◌≡◌, ◌<◌, Bool};
ghost use Rattle.rules.specs.Base.{ranked};
ghost use Rattle.rules.specs.Words.{legging_at, status_of, is_complex_of};
ghost use Rattle.rules.specs.Settings.{increment};
ghost use Rattle.rules.specs.Prices.{own_price, best_own, own_size, clear_price, away, market_best, in_band};
ghost use Rattle.rules.specs.Standing.{other_leg, parent_of, both_open};
ghost use Rattle.rules.specs.Complex.{any_closed};
ghost use Rattle.prices.specs.Picks.{choice_of};
ghost use Rattle.places.specs.Layout.{venue_of};
ghost use Rattle.levels.specs.Grid.{sides_in, LegsIn};
ghost use Rattle.levels.specs.Requirements.{BandReady, LevelReady, BestReady, BestOfSeries};
ghost use Rattle.places.specs.Requirements.{SideReady, IncrementReady};

use levels::{LegSides, TakenLevels};
use places::{Level, Numbers};
use rules::{Complex, Leg, Legging};

// Prices of a side ----------------------------------------------------------------------------

// What the test of the leg of c at side d of series s asks of the regular orders, looked up in a grid.
pub fn sides_of(g: [[Level; 2]; 8], c: Complex, s: u8, d: u8) -> LegSides
    requires { (LegsIn c) × (s < 8) × (d < 2) }
    ensures { result ≡ sides_in g c s d }
{
    let s1 = usize::from(c.series1);
    let d1 = usize::from(arithmetic::opposite_of(c.side1));
    let s2 = usize::from(c.series2);
    let d2 = usize::from(arithmetic::opposite_of(c.side2));
    let first = g[s1][d1];
    let second = g[s2][d2];
    let i = usize::from(s);
    let j = usize::from(d);
    let k = usize::from(arithmetic::opposite_of(d));
    let own = g[i][j];
    let facing = g[i][k];
    let taken = TakenLevels { first, second };
    LegSides {
        own: own.price,
        facing: facing.price,
        taken,
    }
}

// A legging order's own price; 0 where its place is free. A price of 0 is none here and in the functions below, as in the venue and in the definitions.
pub fn own_price_of(legging: Legging) -> u32
    ensures { result ≡ own_price legging }
{
    if legging.quantity == 0 {
        return 0;
    }
    legging.price
}

// The own price of the legging order of a series and side; 0 where there is none.
pub fn own_price(numbers: &Numbers, s: u8, d: u8) -> u32
    requires { SideReady s d }
    ensures { result ≡ own_price (legging_at (venue_of numbers.now) s d) }
{
    own_price_of(places::legging_at(numbers, arithmetic::place_of(s, d)))
}

// The best own price of a side, legging included; best is its best regular price.
pub fn best_own(numbers: &Numbers, best: u32, s: u8, d: u8) -> u32
    requires { BestReady numbers.now best s d }
    ensures { result ≡ best_own (venue_of numbers.now) s d }
{
    let own = own_price(numbers, s, d);
    arithmetic::better_of(d, own, best)
}

// The size at the best own price of a side, legging included; level is that of its regular orders.
pub fn own_size(numbers: &Numbers, level: Level, s: u8, d: u8) -> u64
    requires { LevelReady numbers.now level s d }
    ensures { result ≡ own_size (venue_of numbers.now) s d }
{
    let l = places::legging_at(numbers, arithmetic::place_of(s, d));
    if l.quantity == 0 {
        return level.size;
    }
    let legging = u64::from(l.quantity);
    if l.price == level.price {
        return level.size + legging;
    }
    if arithmetic::is_better(d, l.price, level.price) {
        return legging;
    }
    level.size
}

// The best regular price, 0 if there is none or if the legging order has a strictly better own price.
pub fn clear_price(numbers: &Numbers, best: u32, s: u8, d: u8) -> u32
    requires { BestReady numbers.now best s d }
    ensures { result ≡ clear_price (venue_of numbers.now) s d }
{
    let own = own_price(numbers, s, d);
    if arithmetic::is_better(d, own, best) {
        return 0;
    }
    best
}

// The away price of a side.
pub fn away_price(numbers: &Numbers, s: u8, d: u8) -> u32
    requires { s < 8 }
    ensures { result ≡ away (venue_of numbers.now) s d }
{
    let x = places::listed_at(numbers, usize::from(s));
    if d == 0 {
        return x.bid;
    }
    x.offer
}

// The better of away and best regular price.
pub fn market_best(numbers: &Numbers, best: u32, s: u8, d: u8) -> u32
    requires { BestOfSeries numbers.now best s d }
    ensures { result ≡ market_best (venue_of numbers.now) s d }
{
    let out = away_price(numbers, s, d);
    arithmetic::better_of(d, out, best)
}

// The net t of a complex order is in band; taken has the levels that its legs take.
pub fn in_band(numbers: &Numbers, taken: TakenLevels, c: Complex, t: i64) -> bool
    requires { BandReady numbers.now taken c t }
    ensures { result ≡ in_band (venue_of numbers.now) c t }
{
    let one = taken.first;
    let first = market_best(
        numbers,
        one.price,
        c.series1,
        arithmetic::opposite_of(c.side1),
    );
    if first == 0 {
        return false;
    }
    let two = taken.second;
    let second = market_best(
        numbers,
        two.price,
        c.series2,
        arithmetic::opposite_of(c.side2),
    );
    if second == 0 {
        return false;
    }
    let o = arithmetic::net_of(c.ratio1, c.side1, first, c.ratio2, c.side2, second);
    arithmetic::near_net(places::figure_at(numbers, 8), o, t)
}

// A series' increment in force. It is not 0.
pub fn increment_of(numbers: &Numbers, s: u8) -> u8
    requires { IncrementReady numbers.now s }
    ensures { (result ≡ increment (venue_of numbers.now) s) × (0 < result) }
{
    places::figure_at(numbers, usize::from(s))
}

// The leg of a complex order that is not in series s.
pub fn other_leg(c: Complex, s: u8) -> Leg
    ensures { result ≡ other_leg c s }
{
    if c.series1 == s {
        return Leg {
            series: c.series2,
            side: c.side2,
        };
    }
    Leg {
        series: c.series1,
        side: c.side1,
    }
}

// Who is first ---------------------------------------------------------------------------------

// The candidate x at place n, beside the first in rank of those after it; `before` says whether one goes before another.
pub fn better<T: Copy, F: Fn(T, T) -> bool>(
    best: Option<(usize, T)>,
    n: usize,
    x: T,
    before: F,
) -> Option<(usize, T)>
    requires { F.IsAlwaysCallable before }
    ensures { (order : T → T → Bool) → ((a : T) (r : Bool) → F.post before a x r → r ≡ order a x) → choice_of result ≡ ranked order n x (choice_of best) }
{
    let Some((i, a)) = best else {
        return Some((n, x));
    };
    if before(a, x) {
        return Some((i, a));
    }
    Some((n, x))
}

// Complex orders ------------------------------------------------------------------------------

// A resting complex order of this id.
pub fn is_complex_of(c: Complex, id: u32) -> bool
    ensures { result ≡ is_complex_of id c }
{
    if c.quantity == 0 {
        return false;
    }
    c.id == id
}

// The complex order of a legging order; an order of all zeros where none rests, as the definition `parent_of` has it.
pub fn parent_of(numbers: &Numbers, l: Legging) -> Complex
    ensures { result ≡ parent_of (venue_of numbers.now) l }
{
    let n = places::complexes_used(numbers);
    for i in 0..n {
        let c = places::complex_at(numbers, i);
        if is_complex_of(c, l.parent) {
            return c;
        }
    }
    rules::NO_COMPLEX
}

// A series' status.
pub fn status_of(numbers: &Numbers, s: u8) -> u8
    requires { s < 8 }
    ensures { result ≡ status_of (venue_of numbers.now) s }
{
    let x = places::listed_at(numbers, usize::from(s));
    x.status
}

// Both series of a complex order are open.
pub fn both_open(numbers: &Numbers, c: Complex) -> bool
    requires { LegsIn c }
    ensures { result ≡ both_open (venue_of numbers.now) c }
{
    if status_of(numbers, c.series1) != 1 {
        return false;
    }
    status_of(numbers, c.series2) == 1
}

// A series of a complex order is closed.
pub fn any_closed(numbers: &Numbers, c: Complex) -> bool
    requires { LegsIn c }
    ensures { result ≡ any_closed (venue_of numbers.now) c }
{
    if status_of(numbers, c.series1) == 0 {
        return true;
    }
    status_of(numbers, c.series2) == 0
}
