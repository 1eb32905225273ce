// The venue inside a call: numbers in one lent array (specs/Layout.antt), as they are read. Only this crate, place_writes and venue_numbers know the layout: others
// read and write places, and speak of the venue that the numbers stand for.
#![tactic(auto)]

ghost use Rattle.std.specs.Prelude.{◌≡◌, ℕ, List, min, ◌+◌, ◌*◌, ◌-◌, ◌≤◌, pos, ◌-ℤ◌, length, get_or, replicate, ◌<◌};
ghost use Rattle.rules.specs.Words.{no_regular, no_complex, no_legging, not_listed, no_edition, no_generations};
ghost use Rattle.rules.specs.Settings.{figure_now, free_edition};
ghost use Rattle.rules.specs.Generation.{generations_of};
ghost use Rattle.rules.specs.Step.{mask};
ghost use Rattle.places.specs.Layout.{size, regulars_used, complexes_used, regular_in, complex_in, legging_in, listed_in, edition_in, generations_in, in_use, level_in, regular_key, cross_key, venue_of, Right};
ghost use Rattle.places.specs.Layout.{facing_key};
ghost use Rattle.places.specs.Layout.{none_shows_again};
ghost use Rattle.places.specs.Requirements.{FigureReady, GenerationReady};

use rules::{Complex, Edition, Generations, Legging, Listed, Regular, Venue};

// How many numbers a venue is.
pub const SIZE: usize = 1393;

// A venue as numbers (specs/Layout.antt): what each of them means, and which are kept beside the venue.
pub type Numbers = [u32; SIZE];

// Where each number stands (specs/Offsets.antt has the same names) -----------------------------

// Four numbers of each regular place, the first of them its id.
pub const REGULAR_KEY_AT: usize = 1;

pub const REGULAR_PRICE_AT: usize = 2;

pub const REGULAR_QUANTITY_AT: usize = 3;

// 6 numbers of each of 32 complex places.
pub const COMPLEX_ID_AT: usize = 512;

pub const COMPLEX_LEGS_AT: usize = 513;

pub const COMPLEX_RATIOS_AT: usize = 514;

pub const COMPLEX_CLASS_AT: usize = 515;

pub const COMPLEX_LIMIT_AT: usize = 516;

pub const COMPLEX_QUANTITY_AT: usize = 517;

// 3 numbers of each of 16 legging places.
pub const LEGGING_PARENT_AT: usize = 704;

pub const LEGGING_PRICE_AT: usize = 705;

pub const LEGGING_QUANTITY_AT: usize = 706;

// 3 numbers of each of 8 series.
pub const SERIES_STATUS_AT: usize = 752;

pub const SERIES_BID_AT: usize = 753;

pub const SERIES_OFFER_AT: usize = 754;

// How many regular places are in use.
pub const REGULARS_USED_AT: usize = 776;

// How many complex places are in use.
pub const COMPLEXES_USED_AT: usize = 777;

// The last id accepted.
pub const LAST_ID_AT: usize = 778;

// 3 numbers of each of 16 levels.
pub const LEVEL_PRICE_AT: usize = 779;

pub const LEVEL_LOW_AT: usize = 780;

pub const LEVEL_HIGH_AT: usize = 781;

// How many regular places are known to be held.
pub const REGULARS_KNOWN_AT: usize = 827;

// How many complex places are known to be held.
pub const COMPLEXES_KNOWN_AT: usize = 828;

// The mask of the legging places filled.
pub const LEGGING_MASK_AT: usize = 829;

// 4 numbers of each of 32 editions.
pub const EDITION_NUMBER_AT: usize = 830;

pub const EDITION_MESSAGE_AT: usize = 831;

pub const EDITION_FIGURE_AT: usize = 832;

pub const EDITION_VALUE_AT: usize = 833;

// 9 figures in force, in every second number.
pub const FIGURES_AT: usize = 958;

// 2 numbers more of each of 128 regular places.
pub const REGULAR_RESERVE_AT: usize = 975;

pub const REGULAR_DISPLAY_AT: usize = 976;

// 0 where every order shows what it should.
pub const SHOW_AGAIN_AT: usize = 1231;

// 20 numbers of each of 8 series.
pub const GENERATION_MESSAGES_AT: usize = 1232;

// The last id that a limited sweep looked at.
pub const ID_REACHED_AT: usize = 1392;

// The best price of a side, and its total size; both 0 where there is none.
#[derive(Clone, Copy)]
pub struct Level {
    pub price: u32,
    pub size: u64,
}

// x, but at most n.
pub fn at_most(x: usize, n: usize) -> usize
    ensures { result ≡ min x n }
{
    x.min(n)
}

// The regular places in use.
pub fn regulars_used(numbers: &Numbers) -> usize
    ensures { (result ≡ regulars_used numbers.now) × (result ≤ 128) }
{
    at_most(numbers[REGULARS_USED_AT] as usize, 128)
}

// The complex places in use.
pub fn complexes_used(numbers: &Numbers) -> usize
    ensures { (result ≡ complexes_used numbers.now) × (result ≤ 32) }
{
    at_most(numbers[COMPLEXES_USED_AT] as usize, 32)
}

// What stands at a regular place.
pub fn regular_at(numbers: &Numbers, i: usize) -> Regular
    requires { i < 128 }
    ensures { result ≡ regular_in numbers.now i }
{
    let place = numbers[4 * i + REGULAR_KEY_AT];
    let quantity = numbers[4 * i + REGULAR_QUANTITY_AT];
    let display = arithmetic::lesser(numbers[2 * i + REGULAR_DISPLAY_AT], quantity);
    let reserve = arithmetic::lesser(numbers[2 * i + REGULAR_RESERVE_AT], quantity);
    Regular {
        id: numbers[4 * i],
        series: (place % 16 / 2) as u8,
        side: (place % 2) as u8,
        price: numbers[4 * i + REGULAR_PRICE_AT],
        quantity,
        display,
        reserve,
    }
}

// The id of what stands at a regular place.
pub fn regular_id(numbers: &Numbers, i: usize) -> u32
    requires { i < 128 }
    ensures { result ≡ (regular_in numbers.now i).id }
{
    numbers[4 * i]
}

// The series and side of what stands at a regular place, as one number.
pub fn key_at(numbers: &Numbers, i: usize) -> usize
    requires { i < 128 }
    ensures { result ≡ regular_key (regular_in numbers.now i) }
{
    (numbers[4 * i + REGULAR_KEY_AT] % 16) as usize
}

// What stands at a legging place.
pub fn legging_at(numbers: &Numbers, n: usize) -> Legging
    requires { n < 16 }
    ensures { result ≡ legging_in numbers.now n }
{
    Legging {
        parent: numbers[3 * n + LEGGING_PARENT_AT],
        price: numbers[3 * n + LEGGING_PRICE_AT],
        quantity: numbers[3 * n + LEGGING_QUANTITY_AT],
    }
}

// A series' status and away prices.
pub fn listed_at(numbers: &Numbers, s: usize) -> Listed
    requires { s < 8 }
    ensures { result ≡ listed_in numbers.now s }
{
    let status = numbers[3 * s + SERIES_STATUS_AT];
    Listed {
        status: (status % 256) as u8,
        bid: numbers[3 * s + SERIES_BID_AT],
        offer: numbers[3 * s + SERIES_OFFER_AT],
    }
}

// What stands at a place of the editions.
pub fn edition_at(numbers: &Numbers, i: usize) -> Edition
    requires { i < 32 }
    ensures { result ≡ edition_in numbers.now i }
{
    let figure = numbers[4 * i + EDITION_FIGURE_AT];
    let value = numbers[4 * i + EDITION_VALUE_AT];
    Edition {
        edition: numbers[4 * i + EDITION_NUMBER_AT],
        message: numbers[4 * i + EDITION_MESSAGE_AT],
        figure: (figure % 256) as u8,
        value: (value % 256) as u8,
    }
}

// The first place of the editions that is free; 32 where all are held, since the definition `free_edition` says 32.
pub fn free_edition(numbers: &Numbers) -> usize
    ensures { result ≡ free_edition (venue_of numbers.now) }
{
    for i in 0..32 {
        if numbers[4 * i + EDITION_NUMBER_AT] == 0 {
            return i;
        }
    }
    32
}

// A figure in force, as it is kept: the increment of a series, or the percentage.
pub fn figure_at(numbers: &Numbers, f: usize) -> u8
    requires { FigureReady numbers.now f }
    ensures { result ≡ figure_now (venue_of numbers.now) f }
{
    (numbers[2 * f + FIGURES_AT] % 256) as u8
}

// The legging places that are filled, as they are kept: bit n is place n.
pub fn mask_of(numbers: &Numbers) -> u16
    requires { Right numbers.now }
    ensures { result ≡ mask (venue_of numbers.now).legging }
{
    (numbers[LEGGING_MASK_AT] % 65536) as u16
}

// Every order shows what it should, as far as is known: the show-again flag is 0.
pub fn none_shows_again(numbers: &Numbers) -> bool
    ensures { result ≡ none_shows_again numbers.now }
{
    numbers[SHOW_AGAIN_AT] == 0
}

// A limit, as it is kept: 2^31 above its value.
fn limit_of(x: u32) -> i32
    ensures { result ≡ pos x -ℤ pos 2147483648 }
{
    (i64::from(x) - 2147483648) as i32
}

// What stands at a complex place.
pub fn complex_at(numbers: &Numbers, i: usize) -> Complex
    requires { i < 32 }
    ensures { result ≡ complex_in numbers.now i }
{
    let legs = numbers[6 * i + COMPLEX_LEGS_AT];
    let ratios = numbers[6 * i + COMPLEX_RATIOS_AT];
    let class = numbers[6 * i + COMPLEX_CLASS_AT];
    let limit = limit_of(numbers[6 * i + COMPLEX_LIMIT_AT]);
    Complex {
        id: numbers[6 * i + COMPLEX_ID_AT],
        series1: (legs % 256 / 32) as u8,
        side1: (legs / 16 % 2) as u8,
        series2: (legs % 16 / 2) as u8,
        side2: (legs % 2) as u8,
        class: (class % 256) as u8,
        limit,
        quantity: numbers[6 * i + COMPLEX_QUANTITY_AT],
        ratio1: (ratios / 256 % 256) as u8,
        ratio2: (ratios % 256) as u8,
    }
}

// The legs and ratios of what stands at a complex place, as one number.
pub fn cross_key_at(numbers: &Numbers, i: usize) -> usize
    requires { i < 32 }
    ensures { result ≡ cross_key (complex_in numbers.now i) }
{
    let legs = (numbers[6 * i + COMPLEX_LEGS_AT] % 256) as usize;
    let ratios = (numbers[6 * i + COMPLEX_RATIOS_AT] % 65536) as usize;
    256 * ratios + legs
}

// The key of an order whose legs face these two: the same series and ratios, at the opposite sides.
pub fn facing_key(s: u8, d: u8, q: u8, t: u8, e: u8, r: u8) -> usize
    ensures { result ≡ facing_key s d q t e r }
{
    let one = arithmetic::place_of(s, arithmetic::opposite_of(d));
    let two = arithmetic::place_of(t, arithmetic::opposite_of(e));
    let ratios = 256 * usize::from(q) + usize::from(r);
    256 * ratios + (16 * one + two)
}

// The last id accepted.
pub fn last_id(numbers: &Numbers) -> u32
    ensures { result ≡ (venue_of numbers.now).last }
{
    numbers[LAST_ID_AT]
}

// The message of one of a series' last 20 generations, oldest first; 0 where there were fewer.
pub fn generation_at(numbers: &Numbers, s: usize, k: usize) -> u32
    requires { GenerationReady s k }
    ensures { result ≡ get_or (generations_of (venue_of numbers.now) s) k 0 }
{
    numbers[20 * s + k + GENERATION_MESSAGES_AT]
}

// The message of the oldest of them.
pub fn oldest_at(numbers: &Numbers, s: usize) -> u32
    requires { s < 8 }
    ensures { result ≡ get_or (generations_of (venue_of numbers.now) s) 0 0 }
{
    generation_at(numbers, s, 0)
}

// The last id that a limited sweep looked at.
pub fn reached_id(numbers: &Numbers) -> u32
    ensures { result ≡ (venue_of numbers.now).reached }
{
    numbers[ID_REACHED_AT]
}

// A level's size, which is kept as two numbers: its low and its high 32 bits.
fn size_of(low: u32, high: u32) -> u64
    ensures { result ≡ low + 4294967296 * high }
{
    u64::from(low) + 4294967296 * u64::from(high)
}

// The level kept for a series and side: n is their legging place.
pub fn level_at(numbers: &Numbers, n: usize) -> Level
    requires { n < 16 }
    ensures { result ≡ level_in numbers.now n }
{
    let low = numbers[3 * n + LEVEL_LOW_AT];
    let high = numbers[3 * n + LEVEL_HIGH_AT];
    Level {
        price: numbers[3 * n + LEVEL_PRICE_AT],
        size: size_of(low, high),
    }
}

// The venue anew, table by table --------------------------------------------------------------

// What stands in a table of a venue, place by place.
trait Row {
    // What stands at place `i` of the numbers.
    ghost row_of: { List ℕ → ℕ → Self };

    // How many places the table has.
    ghost many: { ℕ };

    // What stands at a place that is free.
    ghost free: { Self };

    // What stands at a place.
    fn read(numbers: &Numbers, i: usize) -> Self
        requires { i < many }
        ensures { result ≡ row_of numbers.now i };
}

impl Row for Regular {
    ghost row_of = { regular_in };

    ghost many = { 128 };

    ghost free = { no_regular };

    // A regular order, of its place.
    fn read(numbers: &Numbers, i: usize) -> Regular {
        regular_at(numbers, i)
    }
}

impl Row for Complex {
    ghost row_of = { complex_in };

    ghost many = { 32 };

    ghost free = { no_complex };

    // A complex order, of its place.
    fn read(numbers: &Numbers, i: usize) -> Complex {
        complex_at(numbers, i)
    }
}

impl Row for Legging {
    ghost row_of = { legging_in };

    ghost many = { 16 };

    ghost free = { no_legging };

    // A legging order, of its place.
    fn read(numbers: &Numbers, i: usize) -> Legging {
        legging_at(numbers, i)
    }
}

impl Row for Listed {
    ghost row_of = { listed_in };

    ghost many = { 8 };

    ghost free = { not_listed };

    // A series' status and away prices, of their place.
    fn read(numbers: &Numbers, i: usize) -> Listed {
        listed_at(numbers, i)
    }
}

impl Row for Edition {
    ghost row_of = { edition_in };

    ghost many = { 32 };

    ghost free = { no_edition };

    // An edition, of its place.
    fn read(numbers: &Numbers, i: usize) -> Edition {
        edition_at(numbers, i)
    }
}

impl Row for Generations {
    ghost row_of = { generations_in };

    ghost many = { 8 };

    ghost free = { no_generations };

    // A series' last 20 generations, of their place.
    fn read(numbers: &Numbers, i: usize) -> Generations {
        let first = 20 * i + GENERATION_MESSAGES_AT;
        let mut messages = [0u32; 20];
        messages.copy_from_slice(&numbers[first..first + 20]);
        Generations { messages }
    }
}

// The first `n` places of a table that is free. The venue's own table is filled, and no second one stands on the stack.
fn read_table<T: Row + Drop>(table: &mut [T], numbers: &Numbers, n: usize)
    requires some { n ≤ T.many }
    requires free { table.old ≡ replicate T.many T.free }
    ensures { table.new ≡ in_use (T.row_of numbers.now) T.free n T.many }
{
    for i in 0..n {
        table[i] = T::read(numbers, i);
    }
}

// The venue that the numbers stand for. This function is compiled by itself: the stack that its tables take is free again when it returns.
#[inline(never)]
pub fn venue_of(numbers: &Numbers) -> Venue
    ensures { result ≡ venue_of numbers.now }
{
    let mut v = Venue {
        regular: [rules::NO_REGULAR; 128],
        complex: [rules::NO_COMPLEX; 32],
        legging: [rules::NO_LEGGING; 16],
        series: [rules::NOT_LISTED; 8],
        editions: [rules::NO_EDITION; 32],
        generations: [rules::NO_GENERATIONS; 8],
        last: last_id(numbers),
        reached: reached_id(numbers),
    };
    read_table(&mut v.regular, numbers, regulars_used(numbers));
    read_table(&mut v.complex, numbers, complexes_used(numbers));
    read_table(&mut v.legging, numbers, 16);
    read_table(&mut v.series, numbers, 8);
    read_table(&mut v.editions, numbers, 32);
    read_table(&mut v.generations, numbers, 8);
    v
}
