// What the messages do but for sweeps: an order, a complex order and a cancel, each with its settling.
// Each function says in one equation the venue that it leaves and all that it writes: those of its definition.
#![tactic(auto)]

ghost use Rattle.std.specs.Prelude.{◌≡◌, suc, true};
ghost use Rattle.rules.specs.Order as order;
ghost use Rattle.rules.specs.Complex.{complex_place, cancel_complex, rests_complex};
ghost use Rattle.rules.specs.Complex as complex;
ghost use Rattle.records.specs.Seen.{seen};
ghost use Rattle.records.specs.Stage.{stage, ◌does◌};
ghost use Rattle.places.specs.Layout.{regulars_used, complexes_used, venue_of, Counts, SameCounts};
ghost use Rattle.orders.specs.Effects.{withdrawn};
ghost use Rattle.levels.specs.Requirements.{DenseComplex};
ghost use Rattle.places.specs.Requirements.{DenseOrder, DenseRests};

use places::Numbers;
use rules::{Complex, Regular};

// A complex order arrives: it is given a place and worked there; then settling, and generation for its legs.
pub fn complex_order(
    numbers: &mut Numbers,
    number: u32,
    c: Complex,
    out: &mut [u8],
    at: usize,
) -> usize
    requires { DenseComplex numbers.old c }
    ensures result_after { stage (venue_of numbers.new) out.new result ≡ seen out.old at does complex.complex number c (venue_of numbers.old) }
    ensures counts { Counts (regulars_used numbers.old) (suc (complexes_used numbers.old)) numbers.old numbers.new }
{
    let i = places::complexes_used(numbers);
    place_writes::add_complex(numbers, c);
    let worked = work::work(numbers, i, out, at);
    let settled = settling::settle_all(numbers, out, worked);
    generation::generate_order(numbers, number, i, out, settled)
}

// The resting complex order with an id is cancelled.
fn withdraw_complex(numbers: &mut Numbers, id: u32, out: &mut [u8], at: usize) -> usize
    requires { rests_complex (venue_of numbers.old) id ≡ true }
    ensures result_after { stage (venue_of numbers.new) out.new result ≡ seen out.old at does cancel_complex (complex_place (venue_of numbers.old) id) (venue_of numbers.old) }
    ensures counts { SameCounts numbers.old numbers.new }
{
    let found = book::complex_place(numbers, id);
    let Some(i) = found else {
        return at;
    };
    trades::cancel_complex(numbers, i, out, at)
}

// The resting order with an id is cancelled.
fn withdraw(numbers: &mut Numbers, id: u32, out: &mut [u8], at: usize) -> usize
    requires { DenseRests numbers.old id }
    ensures result_after { stage (venue_of numbers.new) out.new result ≡ seen out.old at does withdrawn id (venue_of numbers.old) }
    ensures counts { SameCounts numbers.old numbers.new }
{
    let found = book::regular_place(numbers, id);
    let Some(i) = found else {
        return withdraw_complex(numbers, id, out, at);
    };
    trades::cancel_regular(numbers, i, out, at)
}

// The resting order with an id is cancelled; then settling.
pub fn cancel(numbers: &mut Numbers, id: u32, out: &mut [u8], at: usize) -> usize
    requires { DenseRests numbers.old id }
    ensures result_after { stage (venue_of numbers.new) out.new result ≡ seen out.old at does complex.cancel id (venue_of numbers.old) }
    ensures counts { SameCounts numbers.old numbers.new }
{
    let pos = withdraw(numbers, id, out, at);
    settling::settle_all(numbers, out, pos)
}

// An order arrives and meets the other side; then settling.
pub fn order(numbers: &mut Numbers, o: Regular, out: &mut [u8], at: usize) -> usize
    requires { DenseOrder numbers.old o }
    ensures result_after { stage (venue_of numbers.new) out.new result ≡ seen out.old at does order.order o (venue_of numbers.old) }
    ensures counts { Counts (suc (regulars_used numbers.old)) (complexes_used numbers.old) numbers.old numbers.new }
{
    let pos = matching::enter_regular(numbers, o, out, at);
    settling::settle_all(numbers, out, pos)
}
