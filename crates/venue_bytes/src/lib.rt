// A venue held as bytes (specs/Held.antt): read.
#![tactic(auto)]

ghost use Rattle.std.specs.Prelude.{◌≡◌, ◌<◌, ℕ, List, length};
ghost use Rattle.places.specs.Layout.{upto};
ghost use Rattle.venue_bytes.specs.Held.{venue_size, editions_at, reserves_at, ratios_at, generations_at};
ghost use Rattle.venue_bytes.specs.Held.{regular_from, complex_from, legging_from, listed_from, edition_from, generations_from, row_at, rows_at, venue_from};

use rules::{Complex, Edition, Generations, Legging, Listed, Regular, Venue};

// Where the editions begin.
pub const EDITIONS_AT: usize = 2604;

// Where the regular orders' reserves begin.
pub const RESERVES_AT: usize = EDITIONS_AT + 10 * 32;

// Where the complex orders' ratios begin.
pub const RATIOS_AT: usize = RESERVES_AT + 8 * 128;

// Where the series' generations begin.
pub const GENERATIONS_AT: usize = RATIOS_AT + 2 * 32;

// Where the last id that a limited sweep looked at stands.
pub const REACHED_AT: usize = GENERATIONS_AT + 80 * 8;

// How many bytes a venue has.
pub const VENUE_SIZE: usize = REACHED_AT + 4;

// A row read ----------------------------------------------------------------------------------

// What stands in a table of a venue, row after row.
trait Row {
    // What row `i` of a venue's bytes is.
    ghost row_of: { List ℕ → ℕ → Self };

    // How many rows the table has.
    ghost many: { ℕ };

    // What a row of the table has.
    fn read(bytes: &[u8], i: usize) -> Self
        requires { (length bytes.now ≡ venue_size) × (i < many) }
        ensures { result ≡ row_of bytes.now i };
}

impl Row for Regular {
    ghost row_of = { rows_at regular_from 0 14 reserves_at 8 };

    ghost many = { 128 };

    // A regular order, of its row and its reserve's row.
    fn read(bytes: &[u8], i: usize) -> Regular {
        let row = &bytes[14 * i..];
        let reserve = &bytes[8 * i + RESERVES_AT..];
        Regular {
            id: wire::word_at(row, 0),
            series: wire::byte_at(row, 4),
            side: wire::byte_at(row, 5),
            price: wire::word_at(row, 6),
            quantity: wire::word_at(row, 10),
            display: wire::word_at(reserve, 4),
            reserve: wire::word_at(reserve, 0),
        }
    }
}

impl Row for Complex {
    ghost row_of = { rows_at complex_from 1792 17 ratios_at 2 };

    ghost many = { 32 };

    // A complex order, of its row and its ratios' row.
    fn read(bytes: &[u8], i: usize) -> Complex {
        let row = &bytes[17 * i + 1792..];
        let ratio = &bytes[2 * i + RATIOS_AT..];
        Complex {
            id: wire::word_at(row, 0),
            series1: wire::byte_at(row, 4),
            side1: wire::byte_at(row, 5),
            series2: wire::byte_at(row, 6),
            side2: wire::byte_at(row, 7),
            class: wire::byte_at(row, 8),
            limit: wire::as_signed(wire::word_at(row, 9)),
            quantity: wire::word_at(row, 13),
            ratio1: wire::byte_at(ratio, 0),
            ratio2: wire::byte_at(ratio, 1),
        }
    }
}

impl Row for Legging {
    ghost row_of = { row_at legging_from 2336 12 };

    ghost many = { 16 };

    // A legging order, of its row.
    fn read(bytes: &[u8], i: usize) -> Legging {
        let row = &bytes[12 * i + 2336..];
        Legging {
            parent: wire::word_at(row, 0),
            price: wire::word_at(row, 4),
            quantity: wire::word_at(row, 8),
        }
    }
}

impl Row for Listed {
    ghost row_of = { row_at listed_from 2528 9 };

    ghost many = { 8 };

    // A series' status and away prices, of their row.
    fn read(bytes: &[u8], i: usize) -> Listed {
        let row = &bytes[9 * i + 2528..];
        Listed {
            status: wire::byte_at(row, 0),
            bid: wire::word_at(row, 1),
            offer: wire::word_at(row, 5),
        }
    }
}

impl Row for Edition {
    ghost row_of = { row_at edition_from editions_at 10 };

    ghost many = { 32 };

    // An edition, of its row.
    fn read(bytes: &[u8], i: usize) -> Edition {
        let row = &bytes[10 * i + EDITIONS_AT..];
        Edition {
            edition: wire::word_at(row, 0),
            message: wire::word_at(row, 4),
            figure: wire::byte_at(row, 8),
            value: wire::byte_at(row, 9),
        }
    }
}

impl Row for Generations {
    ghost row_of = { row_at generations_from generations_at 80 };

    ghost many = { 8 };

    // A series' generations, of their row.
    fn read(bytes: &[u8], i: usize) -> Generations {
        let row = &bytes[80 * i + GENERATIONS_AT..];
        let mut messages = [0u32; 20];
        for k in 0..20 {
            messages[k] = wire::word_at(row, 4 * k);
        }
        Generations { messages }
    }
}

// The venue read, table by table --------------------------------------------------------------

// The rows of a table that the bytes hold. The venue's own table is filled, and no second one stands on the stack.
fn read_table<T: Row + Drop>(table: &mut [T], bytes: &[u8])
    requires whole { length bytes.now ≡ venue_size }
    requires all { length table.old ≡ T.many }
    ensures { table.new ≡ upto (T.row_of bytes.now) 0 T.many }
{
    for i in 0..table.len() {
        table[i] = T::read(bytes, i);
    }
}

// The venue that the bytes hold. This function is compiled by itself, as `venue_of` of crate places is.
#[inline(never)]
pub fn venue_from(bytes: &[u8]) -> Venue
    requires { length bytes.now ≡ venue_size }
    ensures { result ≡ venue_from bytes.now }
{
    let mut v = Venue {
        regular: [rules::NO_REGULAR; 128],
        complex: [rules::NO_COMPLEX; 32],
        legging: [rules::NO_LEGGING; 16],
        series: [rules::NOT_LISTED; 8],
        editions: [rules::NO_EDITION; 32],
        generations: [rules::NO_GENERATIONS; 8],
        last: wire::word_at(bytes, 2600),
        reached: wire::word_at(bytes, REACHED_AT),
    };
    read_table(&mut v.regular, bytes);
    read_table(&mut v.complex, bytes);
    read_table(&mut v.legging, bytes);
    read_table(&mut v.series, bytes);
    read_table(&mut v.editions, bytes);
    read_table(&mut v.generations, bytes);
    v
}
