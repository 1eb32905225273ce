// The parts of a venue's set of records (document 02 (h), crate sets), each written from the numbers of the venue.
#![tactic(auto)]

ghost use Rattle.std.specs.Prelude.{◌≡◌, ◌∷◌, ◌++◌, map, ◌+◌, ◌≤◌, length, ◌<◌};
ghost use Rattle.rules.specs.declared.Message.TheVariants.{Away, Status};
ghost use Rattle.rules.specs.Base.{held, keep};
ghost use Rattle.rules.specs.Bytes.{u8};
ghost use Rattle.rules.specs.Messages.{two_leg_fields, encode_message};
ghost use Rattle.rules.specs.Generation.{generations_of};
ghost use Rattle.rules.specs.Places.{holds_edition};
ghost use Rattle.places.specs.Layout.{size, venue_of, regulars_used, complexes_used};
ghost use Rattle.sets.specs.Set.{first_record, series_records, edition_record, regular_record, complex_record, legging_record, legging_records, generation_record, generation_records, reached_records, joined};
ghost use Rattle.set_parts.specs.SetMemory.{set_memory, ◌adds◌};
ghost use Rattle.set_parts.specs.Parts.{record_if, orders_from, regular_next, side_record};

use places::Numbers;
use rules::{Complex, Edition, Legging, Listed, Regular};

// Records -------------------------------------------------------------------------------------

// 80: the message number and the last id.
pub fn put_first(out: &mut [u8], at: usize, number: u32, last: u32) -> usize
    ensures { set_memory out.new result ≡ set_memory out.old at adds first_record number last }
{
    let head = [12u8, 0, 80, 0];
    let words = [number, last];
    records::put_words(out, at, &head, &words)
}

// 5: a series' status.
fn put_status(out: &mut [u8], at: usize, s: u8, status: u8) -> usize
    ensures { set_memory out.new result ≡ set_memory out.old at adds encode_message (Status s status) }
{
    let record = [6u8, 0, 5, 0, s, status];
    records::put(out, at, &record)
}

// 4: its away prices.
fn put_away(out: &mut [u8], at: usize, s: u8, bid: u32, offer: u32) -> usize
    ensures { set_memory out.new result ≡ set_memory out.old at adds encode_message (Away s bid offer) }
{
    let head = [13u8, 0, 4, 0, s];
    let words = [bid, offer];
    records::put_words(out, at, &head, &words)
}

// 5 and 4 of a series.
fn put_listed(out: &mut [u8], at: usize, s: u8, x: Listed) -> usize
    ensures { set_memory out.new result ≡ set_memory out.old at adds (encode_message (Status s x.status) ++ encode_message (Away s x.bid x.offer)) }
{
    let pos = put_status(out, at, s, x.status);
    put_away(out, pos, s, x.bid, x.offer)
}

// 7 or 8: an edition, where the place holds one, with its message number.
fn put_edition(out: &mut [u8], at: usize, e: Edition) -> usize
    ensures { set_memory out.new result ≡ set_memory out.old at adds record_if (holds_edition e) (edition_record e) }
{
    if e.edition == 0 {
        return at;
    }
    let words = [e.edition, e.message];
    if e.figure == 8 {
        let head = [13u8, 0, 8, 0, e.value];
        return records::put_words(out, at, &head, &words);
    }
    let head = [14u8, 0, 7, 0, e.figure, e.value];
    records::put_words(out, at, &head, &words)
}

// 9: a regular order, with what is left and what shows.
fn put_regular(out: &mut [u8], at: usize, o: Regular) -> usize
    ensures { set_memory out.new result ≡ set_memory out.old at adds regular_record o }
{
    let i = records::bytes4(o.id);
    let head = [22u8, 0, 9, 0, i[0], i[1], i[2], i[3], o.series, o.side];
    let words = [o.price, o.quantity, o.display];
    records::put_words(out, at, &head, &words)
}

// The fields of kind 2, which kind 10 begins with, after a length and a kind.
fn put_two_leg(out: &mut [u8], at: usize, length: u8, kind: u8, c: Complex) -> usize
    ensures { set_memory out.new result ≡ set_memory out.old at adds (length ∷ 0 ∷ kind ∷ 0 ∷ two_leg_fields c) }
{
    let i = records::bytes4(c.id);
    let head = [
        length, 0, kind, 0, i[0], i[1], i[2], i[3], c.series1, c.side1, c.series2, c.side2, c.class,
    ];
    let words = [records::bits(i64::from(c.limit)), c.quantity];
    records::put_words(out, at, &head, &words)
}

// A complex order's ratios, a byte each.
fn put_ratios(out: &mut [u8], at: usize, c: Complex) -> usize
    ensures { set_memory out.new result ≡ set_memory out.old at adds (u8 c.ratio1 ++ u8 c.ratio2) }
{
    let ratios = [c.ratio1, c.ratio2];
    records::put(out, at, &ratios)
}

// 2 or 10: a complex order, with what is left.
fn put_complex(out: &mut [u8], at: usize, c: Complex) -> usize
    ensures { set_memory out.new result ≡ set_memory out.old at adds complex_record c }
{
    if arithmetic::is_one_to_one(c) {
        return put_two_leg(out, at, 21, 2, c);
    }
    let pos = put_two_leg(out, at, 23, 10, c);
    put_ratios(out, pos, c)
}

// 82: a legging order, where the place holds one.
fn put_legging(out: &mut [u8], at: usize, s: u8, d: u8, l: Legging) -> usize
    ensures { set_memory out.new result ≡ set_memory out.old at adds record_if (held l.quantity) (legging_record s d l) }
{
    if l.quantity == 0 {
        return at;
    }
    let i = records::bytes4(l.parent);
    let head = [18u8, 0, 82, 0, i[0], i[1], i[2], i[3], s, d];
    let words = [l.price, l.quantity];
    records::put_words(out, at, &head, &words)
}

// 83: a generation of a series, where there is one.
fn put_generation(out: &mut [u8], at: usize, s: u8, number: u32) -> usize
    ensures { set_memory out.new result ≡ set_memory out.old at adds record_if (held number) (generation_record s number) }
{
    if number == 0 {
        return at;
    }
    let head = [9u8, 0, 83, 0, s];
    let words = [number];
    records::put_words(out, at, &head, &words)
}

// 84: the id reached, if any.
pub fn put_reached(out: &mut [u8], at: usize, id: u32) -> usize
    ensures { set_memory out.new result ≡ set_memory out.old at adds joined (reached_records id) }
{
    if id == 0 {
        return at;
    }
    let head = [8u8, 0, 84, 0];
    let words = [id];
    records::put_words(out, at, &head, &words)
}

// Parts ---------------------------------------------------------------------------------------

// 5 and 4 for each series in turn.
pub fn put_series(numbers: &Numbers, out: &mut [u8], at: usize) -> usize
    ensures { set_memory out.new result ≡ set_memory out.old at adds joined (series_records 0 (venue_of numbers.now).series) }
{
    let mut pos = at;
    for s in 0..8 {
        let x = places::listed_at(numbers, s);
        pos = put_listed(out, pos, s as u8, x);
    }
    pos
}

// The editions by rising edition, as their places stand.
pub fn put_editions(numbers: &Numbers, out: &mut [u8], at: usize) -> usize
    ensures { set_memory out.new result ≡ set_memory out.old at adds joined (map edition_record (keep holds_edition (venue_of numbers.now).editions)) }
{
    let mut pos = at;
    for i in 0..32 {
        let e = places::edition_at(numbers, i);
        pos = put_edition(out, pos, e);
    }
    pos
}

// Of the orders left in n regular and m complex places, the regular one at place i comes next, and not the complex one at place j.
fn regular_next(numbers: &Numbers, n: usize, m: usize, i: usize, j: usize) -> bool
    requires { (n ≤ 128) × (m ≤ 32) }
    ensures { result ≡ regular_next numbers.now n m i j }
{
    if n <= i {
        return false;
    }
    if m <= j {
        return true;
    }
    let c = places::complex_at(numbers, j);
    places::regular_id(numbers, i) < c.id
}

// The resting orders of both books by rising id.
pub fn put_orders(numbers: &Numbers, out: &mut [u8], at: usize) -> usize
    ensures { set_memory out.new result ≡ set_memory out.old at adds joined (orders_from numbers.now (regulars_used numbers.now) (complexes_used numbers.now) 0 0) }
{
    let n = places::regulars_used(numbers);
    let m = places::complexes_used(numbers);
    let mut pos = at;
    let mut i: usize = 0;
    let mut j: usize = 0;
    // The two books are merged: each turn moves on in one of them.
    for _turn in 0..n + m {
        if regular_next(numbers, n, m, i, j) {
            let o = places::regular_at(numbers, i);
            pos = put_regular(out, pos, o);
            i += 1;
            continue;
        }
        let c = places::complex_at(numbers, j);
        pos = put_complex(out, pos, c);
        j += 1;
    }
    pos
}

// The legging orders of a series, its first side's first.
fn put_sides(numbers: &Numbers, out: &mut [u8], at: usize, s: usize) -> usize
    requires { s < 8 }
    ensures { set_memory out.new result ≡ set_memory out.old at adds (side_record numbers.now s 0 ++ side_record numbers.now s 1) }
{
    let l = places::legging_at(numbers, 2 * s);
    let pos = put_legging(out, at, s as u8, 0, l);
    let k = places::legging_at(numbers, 2 * s + 1);
    put_legging(out, pos, s as u8, 1, k)
}

// The legging orders by rising place.
pub fn put_leggings(numbers: &Numbers, out: &mut [u8], at: usize) -> usize
    ensures { set_memory out.new result ≡ set_memory out.old at adds joined (legging_records 0 (venue_of numbers.now).legging) }
{
    let mut pos = at;
    for s in 0..8 {
        pos = put_sides(numbers, out, pos, s);
    }
    pos
}

// A series' last generations, oldest first.
fn put_generations(numbers: &Numbers, out: &mut [u8], at: usize, s: usize) -> usize
    requires { s < 8 }
    ensures { set_memory out.new result ≡ set_memory out.old at adds joined (map (generation_record s) (keep held (generations_of (venue_of numbers.now) s))) }
{
    let mut pos = at;
    for k in 0..20 {
        let number = places::generation_at(numbers, s, k);
        pos = put_generation(out, pos, s as u8, number);
    }
    pos
}

// Those of each series in turn.
pub fn put_all_generations(numbers: &Numbers, out: &mut [u8], at: usize) -> usize
    ensures { set_memory out.new result ≡ set_memory out.old at adds joined (generation_records 0 (venue_of numbers.now).generations) }
{
    let mut pos = at;
    for s in 0..8 {
        pos = put_generations(numbers, out, pos, s);
    }
    pos
}
