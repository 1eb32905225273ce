// Whether each place of a venue that is held by value is sound by itself.
#![tactic(auto)]

ghost use Rattle.std.specs.Prelude.{◌≡◌, ◌&&◌, Bool, leb};
ghost use Rattle.std.specs.List.{list_all};
ghost use Rattle.rules.specs.Places.{blank_regular, blank_complex, blank_edition};
ghost use Rattle.rules.specs.Sound.{listed_in_range, edition_in_range};
ghost use Rattle.sound_places.specs.Checked.{asked_regular, regulars_from, complexes_from, editions_from, numbers_from, kept_sound, places_sound};

use rules::{Complex, Edition, Generations, Listed, Regular, Venue};

// Places by themselves ------------------------------------------------------------------------

// A place of the orders or the editions.
trait Place {
    // Whether all of it is zero.
    ghost blank: { Self → Bool };

    // Whether the place is all zero.
    fn is_blank(&self) -> bool
        ensures { result ≡ blank self.now };
}

impl Place for Regular {
    ghost blank = { blank_regular };

    fn is_blank(&self) -> bool {
        *self == rules::NO_REGULAR
    }
}

impl Place for Complex {
    ghost blank = { blank_complex };

    fn is_blank(&self) -> bool {
        *self == rules::NO_COMPLEX
    }
}

impl Place for Edition {
    ghost blank = { blank_edition };

    fn is_blank(&self) -> bool {
        *self == rules::NO_EDITION
    }
}

// Whether all of some places are zero.
fn all_blank<T: Place>(places: &[T]) -> bool
    ensures { result ≡ list_all T.blank places.now }
{
    places.iter().all(|place| place.is_blank())
}

// A held place is in range, its order shows what it should, and its id is at most the last.
fn regular_asked(o: Regular, last: u32) -> bool
    ensures { result ≡ asked_regular last o }
{
    if !wire::regular_in_range(o) {
        return false;
    }
    if o.reserve != o.quantity - o.display {
        return false;
    }
    o.id <= last
}

// Held places come first, each as asked and in rising id; then places that are all zero.
// It is a loop since each id is compared with the one before it, and the first free place ends the pass.
fn regulars_sound(l: &[Regular; 128], last: u32) -> bool
    ensures { result ≡ regulars_from last 0 l.now }
{
    let mut low: u32 = 0;
    for (i, o) in l.iter().enumerate() {
        if o.quantity == 0 {
            return all_blank(&l[i..]);
        }
        if o.id <= low {
            return false;
        }
        if !regular_asked(*o, last) {
            return false;
        }
        low = o.id;
    }
    true
}

// The complex places are sound: ids rise, fields are in their ranges, and free places are blank and last.
// One function for both books would need a trait that tells id, quantity and what is asked of each, and be no shorter.
fn complexes_sound(l: &[Complex; 32], last: u32) -> bool
    ensures { result ≡ complexes_from last 0 l.now }
{
    let mut low: u32 = 0;
    for (i, c) in l.iter().enumerate() {
        if c.quantity == 0 {
            return all_blank(&l[i..]);
        }
        if c.id <= low {
            return false;
        }
        if !wire::complex_in_range(*c) {
            return false;
        }
        if last < c.id {
            return false;
        }
        low = c.id;
    }
    true
}

// A series' fields are in range.
fn listed_in_range(x: Listed) -> bool
    ensures { result ≡ listed_in_range x }
{
    if 2 < x.status {
        return false;
    }
    if 100000 < x.bid {
        return false;
    }
    x.offer <= 100000
}

// Every series' status and away prices are in their ranges.
fn series_sound(l: &[Listed; 8]) -> bool
    ensures { result ≡ list_all listed_in_range l.now }
{
    l.iter().all(|x| listed_in_range(*x))
}

// A held edition sets an increment or the percent, to a value in its range; any u32 is an edition, and a message's number.
fn edition_in_range(e: Edition) -> bool
    ensures { result ≡ edition_in_range e }
{
    if e.figure <= 7 {
        return arithmetic::is_increment(e.value);
    }
    if e.figure != 8 {
        return false;
    }
    e.value <= 50
}

// Held places come first, in range, and rise in both numbers; then places that are all zero.
fn editions_sound(l: &[Edition; 32]) -> bool
    ensures { result ≡ editions_from 0 0 l.now }
{
    let mut low: u32 = 0;
    let mut past: u32 = 0;
    for (i, e) in l.iter().enumerate() {
        if e.edition == 0 {
            return all_blank(&l[i..]);
        }
        if e.edition <= low {
            return false;
        }
        if e.message <= past {
            return false;
        }
        if !edition_in_range(*e) {
            return false;
        }
        low = e.edition;
        past = e.message;
    }
    true
}

// A generation's number is not below the one before it; any u32 is a message's number.
fn is_unfallen(low: u32, n: u32) -> bool
    ensures { result ≡ (leb low n && leb n 4294967295) }
{
    low <= n
}

// A series' generations do not fall in number.
fn numbers_sound(l: &[u32; 20]) -> bool
    ensures { result ≡ numbers_from 0 l.now }
{
    let mut low: u32 = 0;
    for n in l.iter() {
        if !is_unfallen(low, *n) {
            return false;
        }
        low = *n;
    }
    true
}

// Every series' generations are sound.
fn generations_sound(l: &[Generations; 8]) -> bool
    ensures { result ≡ list_all (λ g. numbers_from 0 g.messages) l.now }
{
    l.iter().all(|g| numbers_sound(&g.messages))
}

// What is kept beside the orders and the series: editions, generations, and the id that limited sweeps have reached.
fn kept_sound(v: &Venue) -> bool
    ensures { result ≡ kept_sound v.now }
{
    if !editions_sound(&v.editions) {
        return false;
    }
    if !generations_sound(&v.generations) {
        return false;
    }
    v.reached <= v.last
}

// Every place by itself is sound but for the increments, and books, editions and generations are arranged.
pub fn places_sound(v: Venue) -> bool
    ensures { result ≡ places_sound v }
{
    if !regulars_sound(&v.regular, v.last) {
        return false;
    }
    if !complexes_sound(&v.complex, v.last) {
        return false;
    }
    if !series_sound(&v.series) {
        return false;
    }
    kept_sound(&v)
}
