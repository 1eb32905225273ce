// A venue written as bytes (venue_bytes' specs/Held.antt).
#![tactic(auto)]

ghost use Rattle.std.specs.Prelude.{◌≡◌, ◌+◌, ◌≤◌, ℕ, List, length};
ghost use Rattle.records.specs.Seen.{seen, ◌plus◌};
ghost use Rattle.venue_bytes.specs.Held.{venue_size};
ghost use Rattle.venue_bytes.specs.Held.{regular_bytes, complex_bytes, legging_bytes, listed_bytes, edition_bytes, reserve_bytes, ratio_bytes, generations_bytes, rows, venue_bytes};

use rules::{Complex, Edition, Generations, Legging, Listed, Regular, Venue};

// A row written -------------------------------------------------------------------------------

// A table of a venue: what it holds a row of, and how a row is written. Two tables hold rows of the regular orders, and two of the complex ones.
trait Table {
    type Of: Copy;

    // A row's bytes.
    ghost row_bytes: { Self.Of → List ℕ };

    // A row written from a place on; the place after it is returned.
    fn put(out: &mut [u8], at: usize, row: Self::Of) -> usize
        requires { at + length (row_bytes row) ≤ length out.old }
        ensures { seen out.new result ≡ seen out.old at plus row_bytes row };
}

// The rows of the regular orders.
struct Orders;

impl Table for Orders {
    type Of = Regular;

    ghost row_bytes = { regular_bytes };

    // A regular order's row.
    fn put(out: &mut [u8], at: usize, o: Regular) -> usize {
        let i = records::bytes4(o.id);
        let head = [i[0], i[1], i[2], i[3], o.series, o.side];
        records::put_words(out, at, &head, &[o.price, o.quantity])
    }
}

// The rows of the regular orders' reserves.
struct Reserves;

impl Table for Reserves {
    type Of = Regular;

    ghost row_bytes = { reserve_bytes };

    // The row of a regular order's reserve.
    fn put(out: &mut [u8], at: usize, o: Regular) -> usize {
        records::put_words(out, at, &records::bytes4(o.reserve), &[o.display])
    }
}

// The rows of the complex orders.
struct ComplexOrders;

impl Table for ComplexOrders {
    type Of = Complex;

    ghost row_bytes = { complex_bytes };

    // A complex order's row.
    fn put(out: &mut [u8], at: usize, c: Complex) -> usize {
        let i = records::bytes4(c.id);
        let head = [
            i[0], i[1], i[2], i[3], c.series1, c.side1, c.series2, c.side2, c.class,
        ];
        let words = [records::bits(c.limit as i64), c.quantity];
        records::put_words(out, at, &head, &words)
    }
}

// The rows of the complex orders' ratios.
struct Ratios;

impl Table for Ratios {
    type Of = Complex;

    ghost row_bytes = { ratio_bytes };

    // The row of a complex order's ratios.
    fn put(out: &mut [u8], at: usize, c: Complex) -> usize {
        records::put(out, at, &[c.ratio1, c.ratio2])
    }
}

// The rows of the legging orders.
struct Leggings;

impl Table for Leggings {
    type Of = Legging;

    ghost row_bytes = { legging_bytes };

    // A legging order's row.
    fn put(out: &mut [u8], at: usize, l: Legging) -> usize {
        records::put_words(out, at, &records::bytes4(l.parent), &[l.price, l.quantity])
    }
}

// The rows of the series.
struct Series;

impl Table for Series {
    type Of = Listed;

    ghost row_bytes = { listed_bytes };

    // The row of a series' status and away prices.
    fn put(out: &mut [u8], at: usize, x: Listed) -> usize {
        records::put_words(out, at, &[x.status], &[x.bid, x.offer])
    }
}

// The rows of the editions.
struct Editions;

impl Table for Editions {
    type Of = Edition;

    ghost row_bytes = { edition_bytes };

    // An edition's row.
    fn put(out: &mut [u8], at: usize, x: Edition) -> usize {
        let e = records::bytes4(x.edition);
        let m = records::bytes4(x.message);
        let row = [
            e[0], e[1], e[2], e[3], m[0], m[1], m[2], m[3], x.figure, x.value,
        ];
        records::put(out, at, &row)
    }
}

// The rows of the series' generations.
struct AllGenerations;

impl Table for AllGenerations {
    type Of = Generations;

    ghost row_bytes = { generations_bytes };

    // The row of a series' generations.
    fn put(out: &mut [u8], at: usize, g: Generations) -> usize {
        let mut end = at;
        for number in &g.messages {
            end = records::put(out, end, &records::bytes4(*number));
        }
        end
    }
}

// The venue written, table by table -----------------------------------------------------------

// The rows of a table, from a place on; the place after them is returned.
fn put_rows<T: Table>(out: &mut [u8], at: usize, table: &[T::Of]) -> usize
    requires { at + length (rows T.row_bytes table.now) ≤ length out.old }
    ensures { seen out.new result ≡ seen out.old at plus rows T.row_bytes table.now }
{
    let mut end = at;
    for row in table {
        end = T::put(out, end, *row);
    }
    end
}

// The venue's bytes in the place of what stood there.
pub fn put_venue(out: &mut [u8], v: Venue)
    requires { length out.old ≡ venue_size }
    ensures { out.new ≡ venue_bytes v }
{
    let at = put_rows::<Orders>(out, 0, &v.regular);
    let at = put_rows::<ComplexOrders>(out, at, &v.complex);
    let at = put_rows::<Leggings>(out, at, &v.legging);
    let at = put_rows::<Series>(out, at, &v.series);
    let at = records::put(out, at, &records::bytes4(v.last));
    let at = put_rows::<Editions>(out, at, &v.editions);
    let at = put_rows::<Reserves>(out, at, &v.regular);
    let at = put_rows::<Ratios>(out, at, &v.complex);
    let at = put_rows::<AllGenerations>(out, at, &v.generations);
    records::put(out, at, &records::bytes4(v.reached));
}
