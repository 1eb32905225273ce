// What is traded and told: contracts at one price, a pair, a hit, a meeting; and what is cancelled.
// Each function says in one equation the venue that it leaves and all that it writes: those of its definition.
#![tactic(auto)]

ghost use Rattle.std.specs.Prelude.{◌≡◌, ◌≤◌, min, nat_abs, length, ◌<◌};
ghost use Rattle.rules.specs.Trading.{fill_complex, trade_with, pair_off};
ghost use Rattle.rules.specs.Trading as trading;
ghost use Rattle.rules.specs.Order as order;
ghost use Rattle.rules.specs.Complex.{complex_place, cancel_regular, cancel_complex};
ghost use Rattle.records.specs.Seen.{seen};
ghost use Rattle.records.specs.Stage.{stage, ◌does◌};
ghost use Rattle.places.specs.Layout.{size, venue_of, SameCounts, Right, complexes_used, regulars_used};
ghost use Rattle.trades.specs.Hits.{pairing_of};
ghost use Rattle.places.specs.Requirements.{RegularsReady, RightRegular};

use arithmetic::opposite_of;
use places::Numbers;
use rules::{Cause, Legging};

// A taker of a side trades k contracts with the regular order at place j.
fn trade_with(
    numbers: &mut Numbers,
    taker: u32,
    side: u8,
    j: usize,
    k: u32,
    out: &mut [u8],
    at: usize,
) -> usize
    requires { j < regulars_used numbers.old }
    ensures result_after { stage (venue_of numbers.new) out.new result ≡ seen out.old at does trade_with taker side j k (venue_of numbers.old) }
    ensures counts { SameCounts numbers.old numbers.new }
{
    let m = places::regular_at(numbers, j);
    levels::fill_order(numbers, j, k);
    records::emit_trade(out, at, m.series, side, m.price, k, taker, m.id)
}

// q, but at most n.
pub fn at_most(q: u32, n: u64) -> u32
    ensures { result ≡ min q n }
{
    u64::from(q).min(n) as u32
}

// A taker of a side takes contracts that are shown at a price in a series, by id, until it has all or none are left there.
pub fn trade_at_price(
    numbers: &mut Numbers,
    taker: u32,
    series: u8,
    side: u8,
    price: u32,
    quantity: u64,
    out: &mut [u8],
    at: usize,
) -> usize
    requires { Right numbers.old }
    ensures result_after { stage (venue_of numbers.new) out.new result ≡ seen out.old at does trading.trade_at_price quantity taker series side price quantity (venue_of numbers.old) }
    ensures counts { SameCounts numbers.old numbers.new }
{
    let other = opposite_of(side);
    let mut pos = at;
    let mut left = quantity;
    // A turn takes as many contracts as one order shows, so the turns are not counted.
    while 0 < left {
        let found = book::first_for(numbers, series, other, price);
        let Some((j, m)) = found else {
            return pos;
        };
        let k = at_most(arithmetic::shown_size(m), left);
        pos = trade_with(numbers, taker, side, j, k, out, pos);
        left -= u64::from(k);
    }
    pos
}

// The complex order at place i, if there is one, is filled for k units.
fn fill_pair(numbers: &mut Numbers, i: usize, k: u32)
    ensures numbers_after { venue_of numbers.new ≡ fill_complex i k (venue_of numbers.old) }
    ensures counts { SameCounts numbers.old numbers.new }
{
    if places::complexes_used(numbers) <= i {
        return;
    }
    place_writes::fill_complex(numbers, i, k);
}

// The complex order of this id, at place i, pairs k units at a net; its legging orders go.
pub fn pair_off(
    numbers: &mut Numbers,
    i: usize,
    id: u32,
    net: i64,
    k: u32,
    out: &mut [u8],
    at: usize,
) -> usize
    ensures result_after { stage (venue_of numbers.new) out.new result ≡ seen out.old at does pair_off i id net k (venue_of numbers.old) }
    ensures counts { SameCounts numbers.old numbers.new }
{
    fill_pair(numbers, i, k);
    let pos = records::emit_pair(out, at, id, net, k);
    removal::remove_of(numbers, id, Cause::Executed, out, pos)
}

// What a hit pairs: the complex order, its other leg with the clear price, and the net.
#[derive(Clone, Copy, Debug, PartialEq, Eq)]
pub struct Pairing {
    pub id: u32,
    pub series: u8,
    pub side: u8,
    pub clear: u32,
    pub net: i64,
}

// What a hit of a legging order pairs.
fn pairing_of(numbers: &Numbers, l: Legging, series: u8, side: u8) -> Pairing
    requires { Right numbers.now }
    ensures value { result ≡ pairing_of (venue_of numbers.now) l series side }
    ensures bounded { nat_abs result.net ≤ 2190433320450 }
{
    let c = prices::parent_of(numbers, l);
    let leg = prices::other_leg(c, series);
    let other = opposite_of(leg.side);
    let best = levels::best_regular(numbers, leg.series, other);
    let clear = prices::clear_price(numbers, best, leg.series, other);
    let net = arithmetic::net_of(1, opposite_of(side), l.price, 1, leg.side, clear);
    Pairing {
        id: c.id,
        series: leg.series,
        side: leg.side,
        clear,
        net,
    }
}

// The place of the resting complex order with an id; 32 where there is none, as the definition `complex_place` has it.
fn place_or_end(numbers: &Numbers, id: u32) -> usize
    ensures { result ≡ complex_place (venue_of numbers.now) id }
{
    book::complex_place(numbers, id).unwrap_or(32)
}

// The order at place i hits a legging order for k contracts: the trade, then the pairing.
pub fn hit(numbers: &mut Numbers, i: usize, l: Legging, k: u32, out: &mut [u8], at: usize) -> usize
    requires { RightRegular numbers.old i }
    ensures result_after { stage (venue_of numbers.new) out.new result ≡ seen out.old at does order.hit i l k (venue_of numbers.old) }
    ensures counts { SameCounts numbers.old numbers.new }
{
    let o = places::regular_at(numbers, i);
    let p = pairing_of(numbers, l, o.series, o.side);
    levels::fill_order(numbers, i, k);
    let traded = records::emit_trade(out, at, o.series, o.side, l.price, k, o.id, p.id);
    let taken = trade_at_price(
        numbers,
        p.id,
        p.series,
        p.side,
        p.clear,
        u64::from(k),
        out,
        traded,
    );
    let j = place_or_end(numbers, p.id);
    pair_off(numbers, j, p.id, p.net, k, out, taken)
}

// The order at place i trades k contracts with the regular order at place j.
pub fn meet(numbers: &mut Numbers, i: usize, j: usize, k: u32, out: &mut [u8], at: usize) -> usize
    requires { RegularsReady numbers.old i j }
    ensures result_after { stage (venue_of numbers.new) out.new result ≡ seen out.old at does order.meet i j k (venue_of numbers.old) }
    ensures counts { SameCounts numbers.old numbers.new }
{
    let o = places::regular_at(numbers, i);
    levels::fill_order(numbers, i, k);
    trade_with(numbers, o.id, o.side, j, k, out, at)
}

// The regular order at place i is cancelled.
pub fn cancel_regular(numbers: &mut Numbers, i: usize, out: &mut [u8], at: usize) -> usize
    requires { i < regulars_used numbers.old }
    ensures result_after { stage (venue_of numbers.new) out.new result ≡ seen out.old at does cancel_regular i (venue_of numbers.old) }
    ensures counts { SameCounts numbers.old numbers.new }
{
    let o = places::regular_at(numbers, i);
    levels::fill_order(numbers, i, o.quantity);
    records::emit_cancelled(out, at, o.id, o.quantity)
}

// The complex order at place i is cancelled, and its legging orders go.
pub fn cancel_complex(numbers: &mut Numbers, i: usize, out: &mut [u8], at: usize) -> usize
    requires { i < complexes_used numbers.old }
    ensures result_after { stage (venue_of numbers.new) out.new result ≡ seen out.old at does cancel_complex i (venue_of numbers.old) }
    ensures counts { SameCounts numbers.old numbers.new }
{
    let c = places::complex_at(numbers, i);
    place_writes::fill_complex(numbers, i, c.quantity);
    let pos = records::emit_cancelled(out, at, c.id, c.quantity);
    removal::remove_of(numbers, c.id, Cause::Withdrawn, out, pos)
}
