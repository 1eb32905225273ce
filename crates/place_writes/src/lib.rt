// What changes in the venue inside a call, as stores into its numbers (places' specs/Layout.antt).
#![tactic(auto)]

ghost use Rattle.std.specs.Prelude.{◌≡◌, Bool, List, ℕ, suc, min, ◌+◌, ◌-◌, ◌*◌, ◌^◌, ◌≤◌, ◌<◌, length, get_or, set};
ghost use Rattle.std.proofs.lemmas.List.Edits.{sets};
ghost use Rattle.rules.specs.Words.{place_of, with_series, with_editions, with_generations, with_last, with_reached};
ghost use Rattle.rules.specs.Trading.{fill_regular, fill_complex, put_regular, put_complex};
ghost use Rattle.rules.specs.Generation.{placed, counted};
ghost use Rattle.rules.specs.Places.{holds_regular, holds_complex};
ghost use Rattle.rules.specs.Standing.{show_again};
ghost use Rattle.places.specs.Layout.{size, regulars_used, complexes_used, regular_in, complex_in, venue_of, regular_put, limit_number, complex_row, edition_row, ComplexBounded, bit_of, Right, Marked};
ghost use Rattle.places.specs.Layout.{FiguresBase, FigureSet, FiguresCounted};
ghost use Rattle.places.specs.Layout.{Beside, SameBeside, LevelPut, Counts, SameCounts};
ghost use Rattle.places.specs.Layout.{Filled, RegularsClosed, ComplexesClosed, GapsClosed};
ghost use Rattle.places.specs.Offsets.{complex_id_at, edition_number_at};
ghost use Rattle.places.specs.Requirements.{RegularRoom, ComplexRoom, EditionRoom};
ghost use Rattle.place_writes.specs.Moving.{Rows, Moving, complex_put, OutsideComplexes};
ghost use Rattle.places.proofs.Parts.{OutsideRows};

use places::{Level, Numbers};
use rules::{Complex, Edition, Generations, Legging, Listed, Regular};

// A level is kept for a series and side.
pub fn put_level(numbers: &mut Numbers, n: usize, l: Level)
    requires { n < 16 }
    ensures { LevelPut n l numbers.old numbers.new }
{
    numbers[3 * n + places::LEVEL_PRICE_AT] = l.price;
    numbers[3 * n + places::LEVEL_LOW_AT] = (l.size % 4294967296) as u32;
    numbers[3 * n + places::LEVEL_HIGH_AT] = (l.size / 4294967296) as u32;
}

// The number at a place becomes i, unless it is less.
fn lower(numbers: &mut Numbers, at: usize, i: usize)
    requires { (at < length numbers.old) × (i < 4294967296) }
    ensures { numbers.new ≡ set numbers.old at (min (get_or numbers.old at 0) i) }
{
    numbers[at] = numbers[at].min(i as u32);
}

// The order at place i is filled for k contracts. The levels stay as they are. What is left of an order with reserve has to show again.
pub fn fill_regular(numbers: &mut Numbers, i: usize, k: u32)
    requires { i < regulars_used numbers.old }
    ensures numbers_after { venue_of numbers.new ≡ fill_regular i k (venue_of numbers.old) }
    ensures beside { SameBeside numbers.old numbers.new }
{
    let q = numbers[4 * i + places::REGULAR_QUANTITY_AT];
    numbers[4 * i + places::REGULAR_QUANTITY_AT] = arithmetic::less(q, k);
    if q <= k {
        lower(numbers, places::REGULARS_KNOWN_AT, i);
        return;
    }
    if numbers[2 * i + places::REGULAR_RESERVE_AT] == 0 {
        return;
    }
    numbers[places::SHOW_AGAIN_AT] = 1;
}

// The complex order at a place is filled by `k` units.
pub fn fill_complex(numbers: &mut Numbers, i: usize, k: u32)
    requires { i < complexes_used numbers.old }
    ensures numbers_after { venue_of numbers.new ≡ fill_complex i k (venue_of numbers.old) }
    ensures counts { SameCounts numbers.old numbers.new }
{
    let q = numbers[6 * i + places::COMPLEX_QUANTITY_AT];
    numbers[6 * i + places::COMPLEX_QUANTITY_AT] = arithmetic::less(q, k);
    if k < q {
        return;
    }
    lower(numbers, places::COMPLEXES_KNOWN_AT, i);
}

// The number of a series and side: its legging place.
fn place_number(series: u8, side: u8) -> u32
    ensures { result ≡ place_of series side }
{
    2 * u32::from(series) + u32::from(side)
}

// An order's numbers at place i.
pub fn write_regular(numbers: &mut Numbers, i: usize, o: Regular)
    requires { i < 128 }
    ensures { numbers.new ≡ regular_put numbers.old i o }
{
    let place = place_number(o.series, o.side);
    numbers[4 * i] = o.id;
    numbers[4 * i + places::REGULAR_KEY_AT] = place;
    numbers[4 * i + places::REGULAR_PRICE_AT] = o.price;
    numbers[4 * i + places::REGULAR_QUANTITY_AT] = o.quantity;
    numbers[2 * i + places::REGULAR_RESERVE_AT] = o.reserve;
    numbers[2 * i + places::REGULAR_DISPLAY_AT] = o.display;
}

// An order is given the place after those in use. The levels stay as they are.
pub fn add_regular(numbers: &mut Numbers, o: Regular)
    requires { RegularRoom numbers.old o }
    ensures numbers_after { venue_of numbers.new ≡ put_regular (regulars_used numbers.old) o (venue_of numbers.old) }
    ensures beside { Beside (suc (regulars_used numbers.old)) (complexes_used numbers.old) numbers.old numbers.new }
{
    let n = places::regulars_used(numbers);
    write_regular(numbers, n, o);
    numbers[places::REGULARS_USED_AT] = (n + 1) as u32;
    lower(numbers, places::REGULARS_KNOWN_AT, n);
}

// Each order shows again: all but its shown quantity is reserve. The levels stay as they are.
pub fn show_again(numbers: &mut Numbers)
    ensures numbers_after { venue_of numbers.new ≡ show_again (venue_of numbers.old) }
    ensures beside { SameBeside numbers.old numbers.new }
{
    let n = places::regulars_used(numbers);
    for i in 0..n {
        let o = places::regular_at(numbers, i);
        numbers[2 * i + places::REGULAR_RESERVE_AT] = arithmetic::less(o.quantity, o.display);
    }
    numbers[places::SHOW_AGAIN_AT] = 0;
}

// A limit's number, as it is kept.
fn limit_number(x: i32) -> u32
    ensures { result ≡ limit_number x }
{
    ((x as i64) + 2147483648) as u32
}

// A complex order's numbers at place i.
pub fn write_complex(numbers: &mut Numbers, i: usize, c: Complex)
    requires { i < 32 }
    ensures { (numbers.new ≡ sets numbers.old (6 * i + complex_id_at) (complex_row c)) × ComplexBounded c }
{
    let one = place_number(c.series1, c.side1);
    let two = place_number(c.series2, c.side2);
    let limit = limit_number(c.limit);
    numbers[6 * i + places::COMPLEX_ID_AT] = c.id;
    numbers[6 * i + places::COMPLEX_LEGS_AT] = 16 * one + two;
    numbers[6 * i + places::COMPLEX_RATIOS_AT] = 256 * u32::from(c.ratio1) + u32::from(c.ratio2);
    numbers[6 * i + places::COMPLEX_CLASS_AT] = u32::from(c.class);
    numbers[6 * i + places::COMPLEX_LIMIT_AT] = limit;
    numbers[6 * i + places::COMPLEX_QUANTITY_AT] = c.quantity;
}

// A complex order is given the place after those in use.
pub fn add_complex(numbers: &mut Numbers, c: Complex)
    requires { ComplexRoom numbers.old c }
    ensures numbers_after { venue_of numbers.new ≡ put_complex (complexes_used numbers.old) c (venue_of numbers.old) }
    ensures counts { Counts (regulars_used numbers.old) (suc (complexes_used numbers.old)) numbers.old numbers.new }
{
    let n = places::complexes_used(numbers);
    write_complex(numbers, n, c);
    numbers[places::COMPLEXES_USED_AT] = (n + 1) as u32;
    lower(numbers, places::COMPLEXES_KNOWN_AT, n);
}

// What a legging place adds to the mask.
fn weight(n: usize, l: Legging) -> u32
    requires { n < 16 }
    ensures { (result ≡ bit_of l * 2 ^ n) × (result ≤ 32768) }
{
    if l.quantity == 0 {
        return 0;
    }
    1u32 << (n as u32)
}

// A legging order at a place.
pub fn put_legging(numbers: &mut Numbers, n: usize, l: Legging)
    requires { n < 16 }
    ensures numbers_after { venue_of numbers.new ≡ placed n l (venue_of numbers.old) }
    ensures counts { SameCounts numbers.old numbers.new }
{
    let old = places::legging_at(numbers, n);
    let rest = arithmetic::less(numbers[places::LEGGING_MASK_AT] % 65536, weight(n, old));
    numbers[places::LEGGING_MASK_AT] = rest + weight(n, l);
    numbers[3 * n + places::LEGGING_PARENT_AT] = l.parent;
    numbers[3 * n + places::LEGGING_PRICE_AT] = l.price;
    numbers[3 * n + places::LEGGING_QUANTITY_AT] = l.quantity;
}

// A series' status and away prices anew.
pub fn put_listed(numbers: &mut Numbers, s: usize, x: Listed)
    requires { s < 8 }
    ensures numbers_after { venue_of numbers.new ≡ with_series (venue_of numbers.old) (set (venue_of numbers.old).series s x) }
    ensures counts { SameCounts numbers.old numbers.new }
{
    numbers[3 * s + places::SERIES_STATUS_AT] = u32::from(x.status);
    numbers[3 * s + places::SERIES_BID_AT] = x.bid;
    numbers[3 * s + places::SERIES_OFFER_AT] = x.offer;
}

// An edition's numbers at place i. The figures stay as they are.
pub fn write_edition(numbers: &mut Numbers, i: usize, e: Edition)
    requires { i < 32 }
    ensures { (numbers.new ≡ sets numbers.old (4 * i + edition_number_at) (edition_row e)) × (e.figure < 256) × (e.value < 256) }
{
    numbers[4 * i + places::EDITION_NUMBER_AT] = e.edition;
    numbers[4 * i + places::EDITION_MESSAGE_AT] = e.message;
    numbers[4 * i + places::EDITION_FIGURE_AT] = u32::from(e.figure);
    numbers[4 * i + places::EDITION_VALUE_AT] = u32::from(e.value);
}

// The figures of edition 0. This function is compiled by itself: an archive has it once, and keeps no constants for it.
#[inline(never)]
pub fn base_figures(numbers: &mut Numbers)
    ensures { FiguresBase numbers.old numbers.new }
{
    for f in 0..9u8 {
        let x = arithmetic::base_figure(f);
        numbers[2 * usize::from(f) + places::FIGURES_AT] = u32::from(x);
    }
}

// An edition's value becomes that of its figure; a free place has none.
fn set_figure(numbers: &mut Numbers, e: Edition)
    ensures { FigureSet e numbers.old numbers.new }
{
    if e.edition == 0 {
        return;
    }
    if 8 < e.figure {
        return;
    }
    let f = usize::from(e.figure);
    numbers[2 * f + places::FIGURES_AT] = u32::from(e.value);
}

// The figures in force: those of edition 0, and then those of each edition in turn.
pub fn count_figures(numbers: &mut Numbers)
    ensures { FiguresCounted numbers.old numbers.new }
{
    base_figures(numbers);
    for i in 0..32 {
        let e = places::edition_at(numbers, i);
        set_figure(numbers, e);
    }
}

// An edition at a free place; the figures are counted anew.
pub fn put_edition(numbers: &mut Numbers, i: usize, e: Edition)
    requires { EditionRoom numbers.old i e }
    ensures numbers_after { venue_of numbers.new ≡ with_editions (venue_of numbers.old) (set (venue_of numbers.old).editions i e) }
    ensures counts { SameCounts numbers.old numbers.new }
{
    write_edition(numbers, i, e);
    count_figures(numbers);
}

// The last id accepted.
pub fn put_last(numbers: &mut Numbers, id: u32)
    ensures numbers_after { venue_of numbers.new ≡ with_last (venue_of numbers.old) id }
    ensures counts { SameCounts numbers.old numbers.new }
{
    numbers[places::LAST_ID_AT] = id;
}

// A series' generations anew.
pub fn put_generations(numbers: &mut Numbers, s: usize, g: Generations)
    requires { s < 8 }
    ensures numbers_after { venue_of numbers.new ≡ with_generations (venue_of numbers.old) (set (venue_of numbers.old).generations s g) }
    ensures counts { SameCounts numbers.old numbers.new }
{
    let first = 20 * s + places::GENERATION_MESSAGES_AT;
    numbers[first..first + 20].copy_from_slice(&g.messages);
}

// One generation more of a series, by the message of this number; the oldest is forgotten.
pub fn count_generation(numbers: &mut Numbers, s: usize, number: u32)
    requires { s < 8 }
    ensures numbers_after { venue_of numbers.new ≡ counted number s (venue_of numbers.old) }
    ensures counts { SameCounts numbers.old numbers.new }
{
    let first = 20 * s + places::GENERATION_MESSAGES_AT;
    let last = first + 19;
    numbers.copy_within(first + 1..last + 1, first);
    numbers[last] = number;
}

// The last id that a limited sweep looked at.
pub fn put_reached(numbers: &mut Numbers, id: u32)
    ensures numbers_after { venue_of numbers.new ≡ with_reached (venue_of numbers.old) id }
    ensures counts { SameCounts numbers.old numbers.new }
{
    numbers[places::ID_REACHED_AT] = id;
}

// An order of either book, at its place among the numbers.
trait Order: Copy {
    // An order is held, and not free.
    ghost holds: { Self → Bool };

    // What stands at place `i` of the numbers.
    ghost order_in: { List ℕ → ℕ → Self };

    // The numbers with an order at place `i`.
    ghost order_put: { List ℕ → ℕ → Self → List ℕ };

    // Numbers are the same but for those of the places from one to below another.
    ghost outside: { ℕ → ℕ → List ℕ → List ℕ → Type 0 };

    // How many places there are.
    ghost many: { ℕ };

    // The order at a place is held.
    fn is_held_at(numbers: &Numbers, i: usize) -> bool
        requires { i < many }
        ensures { result ≡ holds (order_in numbers.now i) };

    // The order at a place.
    fn read(numbers: &Numbers, i: usize) -> Self
        requires { i < many }
        ensures { result ≡ order_in numbers.now i };

    // An order's numbers, at a place.
    fn write(self, numbers: &mut Numbers, i: usize)
        requires { i < many }
        ensures { numbers.new ≡ order_put numbers.old i self };
}

impl Order for Regular {
    ghost holds = { holds_regular };

    ghost order_in = { regular_in };

    ghost order_put = { regular_put };

    ghost outside = { OutsideRows };

    ghost many = { 128 };

    // The quantity alone is looked at.
    fn is_held_at(numbers: &Numbers, i: usize) -> bool {
        numbers[4 * i + places::REGULAR_QUANTITY_AT] != 0
    }

    // A regular order, of its place.
    fn read(numbers: &Numbers, i: usize) -> Regular {
        places::regular_at(numbers, i)
    }

    // A regular order, at its place.
    fn write(self, numbers: &mut Numbers, i: usize) {
        write_regular(numbers, i, self);
    }
}

impl Order for Complex {
    ghost holds = { holds_complex };

    ghost order_in = { complex_in };

    ghost order_put = { complex_put };

    ghost outside = { OutsideComplexes };

    ghost many = { 32 };

    // The quantity alone is looked at.
    fn is_held_at(numbers: &Numbers, i: usize) -> bool {
        numbers[6 * i + places::COMPLEX_QUANTITY_AT] != 0
    }

    // A complex order, of its place.
    fn read(numbers: &Numbers, i: usize) -> Complex {
        places::complex_at(numbers, i)
    }

    // A complex order, at its place.
    fn write(self, numbers: &mut Numbers, i: usize) {
        write_complex(numbers, i, self);
    }
}

// The places before the first free one of n; those that are known to be held are not looked at.
fn held_places<T: Order>(numbers: &Numbers, known: usize, n: usize) -> usize
    requires some { (known ≤ n) × (n ≤ T.many) }
    requires known { Filled T.holds (T.order_in numbers.now) known }
    ensures { (result ≤ n) × Filled T.holds (T.order_in numbers.now) result }
{
    for i in known..n {
        if !T::is_held_at(numbers, i) {
            return i;
        }
    }
    n
}

// The orders that are held move down over the gaps between them, of n places; `held` of them stand before the first gap. The places in use are returned.
fn close_up<T: Order>(numbers: &mut Numbers, held: usize, n: usize) -> usize
    requires some { (held ≤ n) × (n ≤ T.many) }
    requires held { Filled T.holds (T.order_in numbers.old) held }
    requires rows { Rows T.many T.order_in T.order_put T.outside }
    requires again { (a c : List ℕ) (i k : ℕ) → length a ≡ size → i < T.many → T.order_in (T.order_put a i (T.order_in c k)) i ≡ T.order_in c k }
    ensures { Moving T.holds T.order_in T.outside numbers.old numbers.new n n result }
{
    let mut j = held;
    for i in held..n {
        if !T::is_held_at(numbers, i) {
            continue;
        }
        let o = T::read(numbers, i);
        o.write(numbers, j);
        j += 1;
    }
    j
}

// The regular places' gaps are closed, and all places in use are known to be held.
pub fn close_regulars(numbers: &mut Numbers)
    requires { Marked numbers.old }
    ensures { RegularsClosed numbers.old numbers.new }
{
    let n = places::regulars_used(numbers);
    let known = places::at_most(numbers[places::REGULARS_KNOWN_AT] as usize, n);
    let held = held_places::<Regular>(numbers, known, n);
    if held == n {
        numbers[places::REGULARS_KNOWN_AT] = n as u32;
        return;
    }
    let left = close_up::<Regular>(numbers, held, n);
    numbers[places::REGULARS_USED_AT] = left as u32;
    numbers[places::REGULARS_KNOWN_AT] = left as u32;
}

// The complex places' gaps are closed, and all places in use are known to be held.
pub fn close_complexes(numbers: &mut Numbers)
    requires { Marked numbers.old }
    ensures { ComplexesClosed numbers.old numbers.new }
{
    let n = places::complexes_used(numbers);
    let known = places::at_most(numbers[places::COMPLEXES_KNOWN_AT] as usize, n);
    let held = held_places::<Complex>(numbers, known, n);
    if held == n {
        numbers[places::COMPLEXES_KNOWN_AT] = n as u32;
        return;
    }
    let left = close_up::<Complex>(numbers, held, n);
    numbers[places::COMPLEXES_USED_AT] = left as u32;
    numbers[places::COMPLEXES_KNOWN_AT] = left as u32;
}

// All gaps are closed.
pub fn close_gaps(numbers: &mut Numbers)
    requires { Right numbers.old }
    ensures { GapsClosed numbers.old numbers.new }
{
    close_regulars(numbers);
    close_complexes(numbers);
}
