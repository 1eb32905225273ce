// Whether a venue that is held by value is sound. One that is sound is loaded on the way.
#![tactic(auto)]

ghost use Rattle.std.specs.Prelude.{◌≡◌, ◌&&◌, ltb, eqb, length, ◌<◌};
ghost use Rattle.std.specs.List.{list_all};
ghost use Rattle.rules.specs.Base.{all};
ghost use Rattle.rules.specs.Places.{blank_legging};
ghost use Rattle.rules.specs.Generation.{generations_of};
ghost use Rattle.rules.specs.Standing.{has_leg};
ghost use Rattle.rules.specs.Sound.{apart, legging_sound, leggings_sound, ids_distinct, follows};
ghost use Rattle.places.specs.Layout.{size, legging_in, venue_of, Figured, Right};
ghost use Rattle.soundness.specs.Checked.{priced_on, on_increments, is_alone, eight, legging_in_range, has_home, orders_sound, Checked, Ready};
ghost use Rattle.levels.specs.Requirements.{GridReady, GridPlaceReady};
ghost use Rattle.places.specs.Requirements.{IncrementReady, RightSeries};

use places::{Level, Numbers};
use rules::{Complex, Legging, Regular, Venue, Verdict};

// Orders beside one another -------------------------------------------------------------------

// A regular order, where it rests, has a price on the increment in force.
fn on_increment(numbers: &Numbers, o: Regular) -> bool
    requires { IncrementReady numbers.now o.series }
    ensures { result ≡ priced_on (venue_of numbers.now) o }
{
    if o.quantity == 0 {
        return true;
    }
    let increment = prices::increment_of(numbers, o.series);
    o.price % u32::from(increment) == 0
}

// Every resting regular order's price is a multiple of its series' increment in force.
// A pass that took its test as a closure would ask of it, at each place, that it may be called there and what it answers: more than this loop says.
fn on_increments(numbers: &Numbers) -> bool
    requires { Figured numbers.now }
    ensures { result ≡ on_increments (venue_of numbers.now) }
{
    let n = places::regulars_used(numbers);
    for i in 0..n {
        let o = places::regular_at(numbers, i);
        if !on_increment(numbers, o) {
            return false;
        }
    }
    true
}

// A regular order, where it rests, has its id alone.
fn is_alone(numbers: &Numbers, o: Regular) -> bool
    ensures { result ≡ is_alone (venue_of numbers.now) o }
{
    if o.quantity == 0 {
        return true;
    }
    book::complex_place(numbers, o.id).is_none()
}

// No id rests in both books.
fn ids_distinct(numbers: &Numbers) -> bool
    ensures { result ≡ ids_distinct (venue_of numbers.now) }
{
    let n = places::regulars_used(numbers);
    for i in 0..n {
        let o = places::regular_at(numbers, i);
        if !is_alone(numbers, o) {
            return false;
        }
    }
    true
}

// A series is neither locked nor crossed, counting own prices.
fn is_apart(numbers: &Numbers, s: u8) -> bool
    requires { RightSeries numbers.now s }
    ensures { result ≡ apart (venue_of numbers.now) s }
{
    let bid = prices::best_own(numbers, levels::best_regular(numbers, s, 0), s, 0);
    if bid == 0 {
        return true;
    }
    let offer = prices::best_own(numbers, levels::best_regular(numbers, s, 1), s, 1);
    if offer == 0 {
        return true;
    }
    bid < offer
}

// No series is locked or crossed, counting own prices.
fn all_apart(numbers: &Numbers) -> bool
    requires { Right numbers.now }
    ensures { result ≡ list_all (apart (venue_of numbers.now)) eight }
{
    (0..8).all(|s| is_apart(numbers, s))
}

// A legging place that is all zero.
fn blank_legging(l: Legging) -> bool
    ensures { result ≡ blank_legging l }
{
    l == rules::NO_LEGGING
}

// A held legging place's fields are in range.
fn legging_in_range(l: Legging) -> bool
    ensures { result ≡ legging_in_range l }
{
    if l.parent == 0 {
        return false;
    }
    if !arithmetic::is_price(l.price) {
        return false;
    }
    arithmetic::is_quantity(l.quantity)
}

// A leg's series and side are these.
fn is_leg(series: u8, side: u8, s: u8, d: u8) -> bool
    ensures { result ≡ (eqb series s && eqb side d) }
{
    if series != s {
        return false;
    }
    side == d
}

// Side d of series s is a leg of c.
fn has_leg(c: Complex, s: u8, d: u8) -> bool
    ensures { result ≡ has_leg c s d }
{
    if is_leg(c.series1, c.side1, s, d) {
        return true;
    }
    is_leg(c.series2, c.side2, s, d)
}

// A legging order's parent rests, has this leg, is one to one, and has as much open.
fn has_home(numbers: &Numbers, l: Legging, s: u8, d: u8) -> bool
    ensures { result ≡ has_home (venue_of numbers.now) l s d }
{
    let c = prices::parent_of(numbers, l);
    if !has_leg(c, s, d) {
        return false;
    }
    if !arithmetic::is_one_to_one(c) {
        return false;
    }
    l.quantity <= c.quantity
}

// What stands at a legging place is sound.
fn legging_sound(numbers: &Numbers, g: [[Level; 2]; 8], n: usize) -> bool
    requires { GridPlaceReady numbers.now g n }
    ensures { result ≡ legging_sound (venue_of numbers.now) n (legging_in numbers.now n) }
{
    let l = places::legging_at(numbers, n);
    if l.quantity == 0 {
        return blank_legging(l);
    }
    if !legging_in_range(l) {
        return false;
    }
    if !has_home(numbers, l, (n / 2) as u8, (n % 2) as u8) {
        return false;
    }
    let Verdict::Stands = settling::judge(numbers, g, n) else {
        return false;
    };
    true
}

// Every legging place is sound.
fn leggings_sound(numbers: &Numbers, g: [[Level; 2]; 8]) -> bool
    requires { GridReady numbers.now g }
    ensures { result ≡ leggings_sound (venue_of numbers.now) 0 (venue_of numbers.now).legging }
{
    for n in 0..16 {
        if !legging_sound(numbers, g, n) {
            return false;
        }
    }
    true
}

// Prices are on the increments, ids are distinct, no series is locked or crossed, and each legging order is sound.
fn orders_sound(numbers: &Numbers) -> bool
    requires { Right numbers.now }
    ensures { result ≡ orders_sound (venue_of numbers.now) }
{
    if !on_increments(numbers) {
        return false;
    }
    if !ids_distinct(numbers) {
        return false;
    }
    if !all_apart(numbers) {
        return false;
    }
    let g = levels::levels(numbers);
    leggings_sound(numbers, g)
}

// Whether a venue is sound; one that is stands among the numbers afterwards.
pub fn load_sound(numbers: &mut Numbers, v: Venue) -> bool
    ensures { Checked v result numbers.new }
{
    if !sound_places::places_sound(v) {
        return false;
    }
    levels::load(numbers, v);
    orders_sound(numbers)
}

// A message's number is above that of each edition kept. It has a loop of its own for the reason that on_increments tells.
fn follows_editions(numbers: &Numbers, number: u32) -> bool
    ensures { result ≡ all (λ e. ltb e.message number) (venue_of numbers.now).editions }
{
    for i in 0..32 {
        let e = places::edition_at(numbers, i);
        if number <= e.message {
            return false;
        }
    }
    true
}

// It is above that of each of a series' generations.
fn follows_series(numbers: &Numbers, s: usize, number: u32) -> bool
    requires { s < 8 }
    ensures { result ≡ all (λ n. ltb n number) (generations_of (venue_of numbers.now) s) }
{
    for k in 0..20 {
        if number <= places::generation_at(numbers, s, k) {
            return false;
        }
    }
    true
}

// A message number is above that of every generation. It is a loop, since the proof of the same pass by the iterator's all did not close.
fn follows_generations(numbers: &Numbers, number: u32) -> bool
    ensures { result ≡ all (λ g. all (λ n. ltb n number) g.messages) (venue_of numbers.now).generations }
{
    for s in 0..8 {
        if !follows_series(numbers, s, number) {
            return false;
        }
    }
    true
}

// A message's number is above that of each edition and of each generation kept.
pub fn follows_kept(numbers: &Numbers, number: u32) -> bool
    ensures { result ≡ follows number (venue_of numbers.now) }
{
    if !follows_editions(numbers, number) {
        return false;
    }
    follows_generations(numbers, number)
}

// Whether a venue is sound and the number of its next message, one more than `before`, above every edition's and generation's kept; one for which this
// holds stands among the numbers afterwards. Nothing kept has a number above the last that there is.
pub fn load_ready(numbers: &mut Numbers, venue: Venue, before: u32) -> bool
    ensures { Ready venue before result numbers.new }
{
    if !load_sound(numbers, venue) {
        return false;
    }
    if before == 4294967295 {
        return true;
    }
    follows_kept(numbers, before + 1)
}
