// The levels of the regular orders, a price and a size for each side of a series: how they are kept and read; and which price is better, or reached.
#![tactic(auto)]

ghost use Rattle.std.specs.Prelude.{◌≡◌, suc, ◌≤◌, length, ◌<◌};
ghost use Rattle.rules.specs.Prices.{better, reaches, best_regular};
ghost use Rattle.rules.specs.Trading.{fill_regular, put_regular};
ghost use Rattle.rules.specs.Generation.{reaches_any};
ghost use Rattle.rules.specs.Standing.{show_again};
ghost use Rattle.places.specs.Layout.{size, regulars_used, complexes_used, venue_of, level_of, Counts, SameCounts, Loaded, Right, Loadable};
ghost use Rattle.levels.specs.Grid.{no_level, with_order, level_by, GridOf, LevelsPut, TakenOf, SidesOf};
ghost use Rattle.levels.specs.Requirements.{LegsReady, LegSideReady};
ghost use Rattle.places.specs.Requirements.{SideReady, RightSide, RightOrder};

use places::{Level, Numbers};
use rules::{Complex, Regular, Venue};

// A price p of this side reaches a price q that is there.
pub fn reaches_any(side: u8, p: u32, q: u32) -> bool
    ensures { result ≡ reaches_any side p q }
{
    if q == 0 {
        return false;
    }
    arithmetic::reaches_price(side, p, q)
}

// Levels kept ---------------------------------------------------------------------------------

// A level of its side, with what the order o shows.
fn with_order(l: Level, o: Regular) -> Level
    requires { l.size ≤ 549755813760 }
    ensures { result ≡ with_order o l }
{
    let shown = arithmetic::shown_size(o);
    if shown == 0 {
        return l;
    }
    let size = u64::from(shown);
    if o.price == l.price {
        return Level {
            price: l.price,
            size: size + l.size,
        };
    }
    if arithmetic::is_better(o.side, o.price, l.price) {
        return Level {
            price: o.price,
            size,
        };
    }
    l
}

// The level of one series and side, in one pass over its orders.
fn level_of(numbers: &Numbers, s: u8, d: u8) -> Level
    requires { SideReady s d }
    ensures { result ≡ level_of s d (venue_of numbers.now).regular }
{
    let key = arithmetic::place_of(s, d);
    let mut l = Level { price: 0, size: 0 };
    let n = places::regulars_used(numbers);
    for i in (0..n).rev() {
        if places::key_at(numbers, i) != key {
            continue;
        }
        let o = places::regular_at(numbers, i);
        l = with_order(l, o);
    }
    l
}

// No side has a level.
fn zero_levels(numbers: &mut Numbers)
    ensures { LevelsPut (λ _. no_level) numbers.old numbers.new }
{
    let none = Level { price: 0, size: 0 };
    for n in 0..16 {
        place_writes::put_level(numbers, n, none);
    }
}

// The levels of all series and sides, in one pass over the places in use.
fn make_levels(numbers: &mut Numbers)
    ensures { LevelsPut (level_by (venue_of numbers.old).regular) numbers.old numbers.new }
{
    zero_levels(numbers);
    let n = places::regulars_used(numbers);
    for i in (0..n).rev() {
        let o = places::regular_at(numbers, i);
        let key = places::key_at(numbers, i);
        let l = places::level_at(numbers, key);
        place_writes::put_level(numbers, key, with_order(l, o));
    }
}

// A venue's numbers, with its levels.
pub fn load(numbers: &mut Numbers, v: Venue)
    requires { Loadable v }
    ensures { Loaded v numbers.new }
{
    venue_numbers::load(numbers, v);
    make_levels(numbers);
}

// An order is given the place after those in use.
pub fn add_order(numbers: &mut Numbers, o: Regular)
    requires { RightOrder numbers.old o }
    ensures numbers_after { venue_of numbers.new ≡ put_regular (regulars_used numbers.old) o (venue_of numbers.old) }
    ensures counts { Counts (suc (regulars_used numbers.old)) (complexes_used numbers.old) numbers.old numbers.new }
{
    let n = arithmetic::place_of(o.series, o.side);
    let l = places::level_at(numbers, n);
    place_writes::add_regular(numbers, o);
    place_writes::put_level(numbers, n, with_order(l, o));
}

// The order at place i is filled for k contracts, what it shows first.
pub fn fill_order(numbers: &mut Numbers, i: usize, k: u32)
    requires { i < regulars_used numbers.old }
    ensures numbers_after { venue_of numbers.new ≡ fill_regular i k (venue_of numbers.old) }
    ensures counts { SameCounts numbers.old numbers.new }
{
    let o = places::regular_at(numbers, i);
    let n = places::key_at(numbers, i);
    let l = places::level_at(numbers, n);
    place_writes::fill_regular(numbers, i, k);
    if o.price != l.price {
        return;
    }
    let shown = arithmetic::shown_size(o);
    let gone = u64::from(arithmetic::lesser(k, shown));
    if gone < l.size {
        let rest = Level {
            price: l.price,
            size: l.size - gone,
        };
        place_writes::put_level(numbers, n, rest);
        return;
    }
    let anew = level_of(numbers, o.series, o.side);
    place_writes::put_level(numbers, n, anew);
}

// Each order shows again. Without the show-again flag each already shows what it should.
pub fn show_again(numbers: &mut Numbers)
    requires { Right numbers.old }
    ensures numbers_after { venue_of numbers.new ≡ show_again (venue_of numbers.old) }
    ensures counts { SameCounts numbers.old numbers.new }
{
    if places::none_shows_again(numbers) {
        return;
    }
    place_writes::show_again(numbers);
    make_levels(numbers);
}

// Prices of a side ----------------------------------------------------------------------------

// The best regular price of a series and side.
pub fn best_regular(numbers: &Numbers, s: u8, d: u8) -> u32
    requires { RightSide numbers.now s d }
    ensures { result ≡ best_regular (venue_of numbers.now) s d }
{
    let l = places::level_at(numbers, arithmetic::place_of(s, d));
    l.price
}

// The levels of all series and sides, in one pass.
pub fn levels(numbers: &Numbers) -> [[Level; 2]; 8]
    requires { Right numbers.now }
    ensures { GridOf result (venue_of numbers.now).regular }
{
    let none = Level { price: 0, size: 0 };
    let mut g = [[none; 2]; 8];
    for s in 0..8 {
        let bids = places::level_at(numbers, 2 * s);
        let offers = places::level_at(numbers, 2 * s + 1);
        g[s] = [bids, offers];
    }
    g
}

// The levels that the legs of a complex order take.
#[derive(Clone, Copy)]
pub struct TakenLevels {
    pub first: Level,
    pub second: Level,
}

// What the test of a leg asks of the regular orders: the best price of its own side and of the side that faces it, and the levels that the legs of its order take.
#[derive(Clone, Copy)]
pub struct LegSides {
    pub own: u32,
    pub facing: u32,
    pub taken: TakenLevels,
}

// The levels that the legs of c take.
pub fn taken_at(numbers: &Numbers, c: Complex) -> TakenLevels
    requires { LegsReady numbers.now c }
    ensures { TakenOf result c (venue_of numbers.now).regular }
{
    let first = places::level_at(
        numbers,
        arithmetic::place_of(c.series1, arithmetic::opposite_of(c.side1)),
    );
    let second = places::level_at(
        numbers,
        arithmetic::place_of(c.series2, arithmetic::opposite_of(c.side2)),
    );
    TakenLevels { first, second }
}

// What the test of the leg of c at side d of series s asks of the regular orders.
pub fn sides_at(numbers: &Numbers, c: Complex, s: u8, d: u8) -> LegSides
    requires { LegSideReady numbers.now c s d }
    ensures { SidesOf result c s d (venue_of numbers.now).regular }
{
    let own = best_regular(numbers, s, d);
    let facing = best_regular(numbers, s, arithmetic::opposite_of(d));
    let taken = taken_at(numbers, c);
    LegSides { own, facing, taken }
}
