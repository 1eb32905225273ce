// A venue held by value, and the fresh one, laid out as numbers (places' specs/Layout.antt).
#![tactic(auto)]

ghost use Rattle.std.specs.Prelude.{◌≡◌, ◌<◌, Bool, ℕ, List, length, set};
ghost use Rattle.rules.specs.Words.{fresh_venue, no_regular, no_complex, with_legging, with_series, with_editions, with_generations};
ghost use Rattle.rules.specs.Step.{mask};
ghost use Rattle.rules.specs.Places.{holds_regular, holds_complex};
ghost use Rattle.places.specs.Layout.{size, regular_in, complex_in, regular_put, venue_of, bit_of, OnSide, Bounded, Placed, Loadable};
ghost use Rattle.places.proofs.Parts.{OutsideRows};
ghost use Rattle.place_writes.specs.Moving.{Rows, complex_put, OutsideComplexes};
ghost use Rattle.venue_numbers.specs.Parts.{SameUsed, BookLaid, PartOf, legging_part, series_part, editions_part, generations_part};
ghost use Rattle.places.specs.Layout.{BesideCounted, Laid, Loaded};
ghost use Rattle.rules.specs.declared.Venue.{Venue};

use places::Numbers;
use rules::{Complex, Edition, Generations, Legging, Listed, Regular, Venue};

// A fresh venue -------------------------------------------------------------------------------

// A fresh venue's numbers: zeros, but that every series is open and the figures are those of edition 0.
pub fn fresh_numbers() -> [u32; places::SIZE]
    ensures { Loaded fresh_venue result }
{
    let mut numbers = [0u32; places::SIZE];
    for s in 0..8 {
        numbers[3 * s + places::SERIES_STATUS_AT] = 1;
    }
    place_writes::base_figures(&mut numbers);
    numbers
}

// A venue's numbers, part by part -------------------------------------------------------------

// An order of either book, as it is laid among the numbers.
trait Order: Copy {
    // An order is held, and not free.
    ghost holds: { Self → Bool };

    // What stands at a place that is free.
    ghost free: { Self };

    // What a load asks of an order.
    ghost asked: { Self → Type 0 };

    // What stands at place `i` of the numbers.
    ghost order_in: { List ℕ → ℕ → Self };

    // The numbers with an order at place `i`.
    ghost order_put: { List ℕ → ℕ → Self → List ℕ };

    // Numbers are the same but for those of the places from one to below another.
    ghost outside: { ℕ → ℕ → List ℕ → List ℕ → Type 0 };

    // How many places there are.
    ghost many: { ℕ };

    // The order is held.
    fn is_held(self) -> bool
        ensures { result ≡ holds self };

    // An order's numbers, at a place; they are read back.
    fn write(self, numbers: &mut Numbers, i: usize)
        requires { i < many }
        ensures put { numbers.new ≡ order_put numbers.old i self }
        ensures back { asked self → order_in numbers.new i ≡ self };
}

impl Order for Regular {
    ghost holds = { holds_regular };

    ghost free = { no_regular };

    ghost asked = { λ o. OnSide o.series o.side × Bounded o };

    ghost order_in = { regular_in };

    ghost order_put = { regular_put };

    ghost outside = { OutsideRows };

    ghost many = { 128 };

    // A regular order has a quantity.
    fn is_held(self) -> bool {
        self.quantity != 0
    }

    // A regular order, at its place.
    fn write(self, numbers: &mut Numbers, i: usize) {
        place_writes::write_regular(numbers, i, self);
    }
}

impl Order for Complex {
    ghost holds = { holds_complex };

    ghost free = { no_complex };

    ghost asked = { λ c. OnSide c.series1 c.side1 × OnSide c.series2 c.side2 };

    ghost order_in = { complex_in };

    ghost order_put = { complex_put };

    ghost outside = { OutsideComplexes };

    ghost many = { 32 };

    // A complex order has a quantity.
    fn is_held(self) -> bool {
        self.quantity != 0
    }

    // A complex order, at its place.
    fn write(self, numbers: &mut Numbers, i: usize) {
        place_writes::write_complex(numbers, i, self);
    }
}

// The orders of a book written among the numbers, to the first free place. The places in use are returned.
fn load_book<T: Order>(numbers: &mut Numbers, l: &[T]) -> usize
    requires many { length l.now ≡ T.many }
    requires placed { Placed T.holds T.free T.asked l.now }
    requires rows { Rows T.many T.order_in T.order_put T.outside }
    ensures { BookLaid T.holds T.free T.order_in T.outside T.many numbers.old numbers.new l.now result }
{
    for (i, o) in l.iter().enumerate() {
        if !o.is_held() {
            return i;
        }
        o.write(numbers, i);
    }
    l.len()
}

// What stands in a part of a venue, place by place.
trait Part {
    // A venue whose part is this list.
    ghost with: { Venue → List Self → Venue };

    // A venue's part.
    ghost part: { Venue → List Self };

    // How many places the part has.
    ghost many: { ℕ };

    // It is written among the numbers, at a place.
    fn put(self, numbers: &mut Numbers, i: usize)
        requires { i < many }
        ensures numbers_after { venue_of numbers.new ≡ with (venue_of numbers.old) (set (part (venue_of numbers.old)) i self) }
        ensures used { SameUsed numbers.old numbers.new };

    ghost own_part: { PartOf with part many };
}

impl Part for Legging {
    ghost with = { with_legging };

    ghost part = { λ v. v.legging };

    ghost many = { 16 };

    ghost own_part = { legging_part };

    // A legging order, among the numbers.
    fn put(self, numbers: &mut Numbers, i: usize) {
        place_writes::put_legging(numbers, i, self);
    }
}

impl Part for Listed {
    ghost with = { with_series };

    ghost part = { λ v. v.series };

    ghost many = { 8 };

    ghost own_part = { series_part };

    // A series' status and away prices, among the numbers.
    fn put(self, numbers: &mut Numbers, i: usize) {
        place_writes::put_listed(numbers, i, self);
    }
}

impl Part for Edition {
    ghost with = { with_editions };

    ghost part = { λ v. v.editions };

    ghost many = { 32 };

    ghost own_part = { editions_part };

    // An edition, among the numbers. The figures stay as they are.
    fn put(self, numbers: &mut Numbers, i: usize) {
        place_writes::write_edition(numbers, i, self);
    }
}

impl Part for Generations {
    ghost with = { with_generations };

    ghost part = { λ v. v.generations };

    ghost many = { 8 };

    ghost own_part = { generations_part };

    // A series' generations, among the numbers.
    fn put(self, numbers: &mut Numbers, i: usize) {
        place_writes::put_generations(numbers, i, self);
    }
}

// A part of a venue written among the numbers, place by place.
fn load_part<T: Part + Copy>(numbers: &mut Numbers, l: &[T])
    requires { length l.now ≡ T.many }
    ensures numbers_after { venue_of numbers.new ≡ T.with (venue_of numbers.old) l.now }
    ensures used { SameUsed numbers.old numbers.new }
{
    for (i, x) in l.iter().enumerate() {
        x.put(numbers, i);
    }
}

// 1 where a legging place is filled, 0 where it is free.
fn bit(l: Legging) -> u16
    ensures { result ≡ bit_of l }
{
    if l.quantity == 0 {
        return 0;
    }
    1
}

// The mask of the legging places, counted.
fn count_mask(numbers: &Numbers) -> u16
    ensures { result ≡ mask (venue_of numbers.now).legging }
{
    let mut m: u16 = 0;
    for i in (0..16).rev() {
        let l = places::legging_at(numbers, i);
        m = m * 2 + bit(l);
    }
    m
}

// What is kept beside the venue, but for the levels: no place is known to be held, mask and figures are counted, and there is no mark.
fn count_beside(numbers: &mut Numbers)
    ensures { BesideCounted numbers.old numbers.new }
{
    let mask = count_mask(numbers);
    place_writes::count_figures(numbers);
    numbers[places::REGULARS_KNOWN_AT] = 0;
    numbers[places::COMPLEXES_KNOWN_AT] = 0;
    numbers[places::LEGGING_MASK_AT] = u32::from(mask);
    numbers[places::SHOW_AGAIN_AT] = 0;
}

// A venue's numbers, and what is kept beside them; the levels stay as they are.
pub fn load(numbers: &mut Numbers, v: Venue)
    requires { Loadable v }
    ensures { Laid v numbers.new }
{
    load_part(numbers, &v.generations);
    place_writes::put_reached(numbers, v.reached);
    let regulars = load_book(numbers, &v.regular);
    numbers[places::REGULARS_USED_AT] = regulars as u32;
    let complexes = load_book(numbers, &v.complex);
    numbers[places::COMPLEXES_USED_AT] = complexes as u32;
    load_part(numbers, &v.legging);
    load_part(numbers, &v.series);
    load_part(numbers, &v.editions);
    place_writes::put_last(numbers, v.last);
    count_beside(numbers);
}
