// Each table of a venue, filled from the records of a set that was looked at.
#![tactic(auto)]

ghost use Rattle.std.specs.Prelude.{◌≡◌, true, Bool, List, ℕ, [], ◌≤◌, length, get_or};
ghost use Rattle.rules.specs.Bytes.{u32_at, kind_field};
ghost use Rattle.sets.specs.Set.{tells_regular, tells_complex, tells_edition, count_of, set_length, complex_told};
ghost use Rattle.sets.specs.Set.{regular_told, edition_told, venue_told};
ghost use Rattle.rules.specs.Generation.{one_more};
ghost use Rattle.set_tables.specs.Told.{row_in, told_by, begun, ReadableSet, legging_of, listed_of};

mod walk;

use rules::{Complex, Edition, Generations, Legging, Listed, Regular, Venue};
use walk::Records;

// What a record tells -------------------------------------------------------------------------

// What shows of an order: all of it where it is of kind 1.
fn display_told(r: &[u8]) -> u32
    ensures { result ≡ (regular_told r.now).display }
{
    if set_check::kind_of(r) == 9 {
        return wire::u32_at(r, 18);
    }
    wire::u32_at(r, 14)
}

// A kind of order or edition, each of which a set tells by a record of its own.
trait Told: Copy {
    // Whether a record tells one of this kind.
    ghost tells: { List ℕ → Bool };

    // What it tells.
    ghost told: { List ℕ → Self };

    // Whether a record tells one of this kind.
    fn tells(r: &[u8]) -> bool
        ensures { result ≡ tells r.now };

    // What a record tells.
    fn told(r: &[u8]) -> Self
        requires tells { tells r.now ≡ true }
        requires whole { set_length (kind_field r.now) ≡ length r.now }
        ensures { result ≡ told r.now };
}

impl Told for Regular {
    ghost tells = { tells_regular };

    ghost told = { regular_told };

    fn tells(r: &[u8]) -> bool {
        set_check::tells_regular(r)
    }

    fn told(r: &[u8]) -> Regular {
        wire::order_at(r, display_told(r))
    }
}

impl Told for Complex {
    ghost tells = { tells_complex };

    ghost told = { complex_told };

    fn tells(r: &[u8]) -> bool {
        set_check::tells_complex(r)
    }

    fn told(r: &[u8]) -> Complex {
        if set_check::kind_of(r) == 10 {
            return wire::two_leg_at(r, wire::u8_at(r, 21), wire::u8_at(r, 22));
        }
        wire::two_leg_at(r, 1, 1)
    }
}

impl Told for Edition {
    ghost tells = { tells_edition };

    ghost told = { edition_told };

    fn tells(r: &[u8]) -> bool {
        set_check::tells_edition(r)
    }

    fn told(r: &[u8]) -> Edition {
        if set_check::kind_of(r) == 8 {
            return Edition {
                edition: wire::u32_at(r, 5),
                message: wire::u32_at(r, 9),
                figure: 8,
                value: wire::u8_at(r, 4),
            };
        }
        Edition {
            edition: wire::u32_at(r, 6),
            message: wire::u32_at(r, 10),
            figure: wire::u8_at(r, 4),
            value: wire::u8_at(r, 5),
        }
    }
}

// The legging order that a record tells.
fn legging_told(r: &[u8]) -> Legging
    ensures { result ≡ legging_of r.now }
{
    Legging {
        parent: wire::u32_at(r, 4),
        price: wire::u32_at(r, 10),
        quantity: wire::u32_at(r, 14),
    }
}

// A series' status and away prices, of the two records that tell them.
fn listed_told(status: &[u8], away: &[u8]) -> Listed
    ensures { result ≡ listed_of status.now away.now }
{
    Listed {
        status: wire::u8_at(status, 5),
        bid: wire::u32_at(away, 5),
        offer: wire::u32_at(away, 9),
    }
}

// The venue of a set, table by table ----------------------------------------------------------

// Each record that tells a `T`, put into a table: the first at its first place, and each other at the next.
fn fill<T: Told>(memory: &[u8], table: &mut [T])
    requires set { ReadableSet memory.now }
    requires room { count_of T.tells (row_in memory.now) ≤ length table.old }
    ensures { table.new ≡ begun (told_by T.tells T.told (row_in memory.now)) table.old }
{
    let mut n = 0;
    for r in Records::of(memory) {
        if T::tells(r) {
            table[n] = T::told(r);
            n += 1;
        }
    }
}

// The regular orders that a set tells, place by place.
fn regulars_told(memory: &[u8]) -> [Regular; 128]
    requires { ReadableSet memory.now }
    ensures { result ≡ (venue_told (row_in memory.now)).regular }
{
    let mut l = [rules::NO_REGULAR; 128];
    fill(memory, &mut l);
    l
}

// The complex orders that a set tells, place by place.
fn complexes_told(memory: &[u8]) -> [Complex; 32]
    requires { ReadableSet memory.now }
    ensures { result ≡ (venue_told (row_in memory.now)).complex }
{
    let mut l = [rules::NO_COMPLEX; 32];
    fill(memory, &mut l);
    l
}

// The editions that a set tells, place by place.
fn editions_told(memory: &[u8]) -> [Edition; 32]
    requires { ReadableSet memory.now }
    ensures { result ≡ (venue_told (row_in memory.now)).editions }
{
    let mut l = [rules::NO_EDITION; 32];
    fill(memory, &mut l);
    l
}

// The legging orders that a set tells, each at its place.
fn leggings_told(memory: &[u8]) -> [Legging; 16]
    requires { ReadableSet memory.now }
    ensures { result ≡ (venue_told (row_in memory.now)).legging }
{
    let mut l = [rules::NO_LEGGING; 16];
    for r in Records::of(memory) {
        if set_check::tells_legging(r) {
            let n = set_check::place_of(r) as usize;
            l[n] = legging_told(r);
        }
    }
    l
}

// The status and away prices of every series that a set tells.
fn series_told(memory: &[u8]) -> [Listed; 8]
    requires { ReadableSet memory.now }
    ensures { result ≡ (venue_told (row_in memory.now)).series }
{
    let mut records = Records::of(memory);
    let _first = records.front();
    let mut l = [rules::NOT_LISTED; 8];
    for s in 0..8 {
        let status = records.front();
        let away = records.front();
        l[s] = listed_told(status, away);
    }
    l
}

// One generation more of a series; the oldest number goes.
fn one_more(mut g: Generations, number: u32) -> Generations
    ensures { result.messages ≡ one_more number g.messages }
{
    g.messages.rotate_left(1);
    g.messages[19] = number;
    g
}

// The generations of every series that a set tells.
fn generations_told(memory: &[u8]) -> [Generations; 8]
    requires { ReadableSet memory.now }
    ensures { result ≡ (venue_told (row_in memory.now)).generations }
{
    let mut l = [rules::NO_GENERATIONS; 8];
    for r in Records::of(memory) {
        if set_check::tells_generation(r) {
            let s = wire::u8_at(r, 4) as usize;
            l[s] = one_more(l[s], set_check::told_of(r));
        }
    }
    l
}

// The id reached by limited sweeps; 0 if no record tells one.
fn reached_told(memory: &[u8]) -> u32
    requires { ReadableSet memory.now }
    ensures { result ≡ (venue_told (row_in memory.now)).reached }
{
    for r in Records::of(memory) {
        if set_check::kind_of(r) == 84 {
            return wire::u32_at(r, 4);
        }
    }
    0
}

// A number that the first record tells.
pub fn first_told(memory: &[u8], at: usize) -> u32
    requires { ReadableSet memory.now }
    ensures { result ≡ u32_at (get_or (row_in memory.now) 0 []) at }
{
    wire::u32_at(Records::of(memory).front(), at)
}

// The venue that the records of a set tell. This function is compiled by itself: the stack that it takes is free again when the venue is checked.
#[inline(never)]
pub fn venue_told(memory: &[u8]) -> Venue
    requires { ReadableSet memory.now }
    ensures { result ≡ venue_told (row_in memory.now) }
{
    let regular = regulars_told(memory);
    let complex = complexes_told(memory);
    let legging = leggings_told(memory);
    let series = series_told(memory);
    let editions = editions_told(memory);
    let generations = generations_told(memory);
    let last = first_told(memory, 8);
    let reached = reached_told(memory);
    Venue {
        regular,
        complex,
        legging,
        series,
        editions,
        generations,
        last,
        reached,
    }
}
