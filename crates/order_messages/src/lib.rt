// An order, a complex order and a cancel, each by the fields of its message: their ranges, the refusals, and what it does.
#![tactic(auto)]

ghost use Rattle.std.specs.Prelude.{◌≡◌, false, eqb};
ghost use Rattle.rules.specs.declared.Message.TheVariants.{Order, TwoLeg, Cancel};
ghost use Rattle.rules.specs.Words.{with_last, is_id};
ghost use Rattle.rules.specs.Order.{order};
ghost use Rattle.rules.specs.Complex.{complex};
ghost use Rattle.rules.specs.Refusals.{regular_in_range, two_leg_in_range};
ghost use Rattle.records.specs.Seen.{seen};
ghost use Rattle.records.specs.Stage.{stage, ◌does◌};
ghost use Rattle.places.specs.Layout.{venue_of, Right};
ghost use Rattle.answers.specs.Steps.{answered_by, ranged_by, Steps};
ghost use Rattle.answers.specs.Requirements.{SoundNumbers, SoundOrder, SoundComplex, SoundPair};
ghost use Rattle.levels.specs.Requirements.{DenseComplex};
ghost use Rattle.places.specs.Requirements.{InRangeOrder};

use answers::Stepped;
use places::Numbers;
use rules::{Complex, Regular};

// What an accepted order does -------------------------------------------------------------------

// An order arrives, and its id is the last accepted.
fn enter_order(numbers: &mut Numbers, o: Regular, out: &mut [u8], at: usize) -> usize
    requires { InRangeOrder numbers.old o }
    ensures result_after { stage (venue_of numbers.new) out.new result ≡ seen out.old at does order o (with_last (venue_of numbers.old) o.id) }
    ensures right { Right numbers.new }
{
    place_writes::put_last(numbers, o.id);
    orders::order(numbers, o, out, at)
}

// A complex order arrives by the message of this number, and its id is the last accepted.
fn enter_complex(numbers: &mut Numbers, number: u32, c: Complex, out: &mut [u8], at: usize) -> usize
    requires { DenseComplex numbers.old c }
    ensures result_after { stage (venue_of numbers.new) out.new result ≡ seen out.old at does complex number c (with_last (venue_of numbers.old) c.id) }
    ensures right { Right numbers.new }
{
    place_writes::put_last(numbers, c.id);
    orders::complex_order(numbers, number, c, out, at)
}

// By kind ---------------------------------------------------------------------------------------

// 1 and 9: an order. In each step the answer is written first and set at the end: what stands between, as a closure, would have to say all that it ensures.
pub fn order_step(numbers: &mut Numbers, number: u32, o: Regular, out: &mut [u8]) -> Stepped
    requires { SoundOrder numbers.old o }
    ensures { Steps (ranged_by (venue_of numbers.old) number (regular_in_range o) false (Order o)) out.old result numbers.new out.new }
{
    if !wire::regular_in_range(o) {
        return answers::refuse(numbers, number, 4, out);
    }
    if let Err(refusal) = refusals::order_refusal(numbers, o) {
        return answers::refuse(numbers, number, arithmetic::refusal_number(refusal), out);
    }
    let at = records::emit_answer(out, 0, number, 0, 0, 0);
    let end = enter_order(numbers, o, out, at);
    answers::finish(numbers, number, out, end)
}

// A complex order whose fields are in range.
fn complex_step(numbers: &mut Numbers, number: u32, c: Complex, out: &mut [u8]) -> Stepped
    requires { SoundComplex numbers.old c }
    ensures { Steps (answered_by (venue_of numbers.old) number (TwoLeg c)) out.old result numbers.new out.new }
{
    if let Err(refusal) = refusals::complex_refusal(numbers, c) {
        return answers::refuse(numbers, number, arithmetic::refusal_number(refusal), out);
    }
    let at = records::emit_answer(out, 0, number, 0, 0, 0);
    let end = enter_complex(numbers, number, c, out, at);
    answers::finish(numbers, number, out, end)
}

// 2: a complex order one to one.
pub fn pair_step(numbers: &mut Numbers, number: u32, c: Complex, out: &mut [u8]) -> Stepped
    requires { SoundPair numbers.old c }
    ensures { Steps (ranged_by (venue_of numbers.old) number (two_leg_in_range 200000 c) false (TwoLeg c)) out.old result numbers.new out.new }
{
    if !wire::two_leg_in_range(200000, c) {
        return answers::refuse(numbers, number, 4, out);
    }
    complex_step(numbers, number, c, out)
}

// 10: a complex order with its ratios, which differ.
pub fn ratio_step(numbers: &mut Numbers, number: u32, c: Complex, out: &mut [u8]) -> Stepped
    requires { SoundNumbers numbers.old }
    ensures { Steps (ranged_by (venue_of numbers.old) number (two_leg_in_range 600000 c) (eqb c.ratio1 c.ratio2) (TwoLeg c)) out.old result numbers.new out.new }
{
    if !wire::two_leg_in_range(600000, c) {
        return answers::refuse(numbers, number, 4, out);
    }
    if c.ratio1 == c.ratio2 {
        return answers::refuse(numbers, number, 14, out);
    }
    complex_step(numbers, number, c, out)
}

// 3: a cancel.
pub fn cancel_step(numbers: &mut Numbers, number: u32, id: u32, out: &mut [u8]) -> Stepped
    requires { SoundNumbers numbers.old }
    ensures { Steps (ranged_by (venue_of numbers.old) number (is_id id) false (Cancel id)) out.old result numbers.new out.new }
{
    if id == 0 {
        return answers::refuse(numbers, number, 4, out);
    }
    if !refusals::rests(numbers, id) {
        return answers::refuse(numbers, number, 8, out);
    }
    let at = records::emit_answer(out, 0, number, 0, 0, 0);
    let end = orders::cancel(numbers, id, out, at);
    answers::finish(numbers, number, out, end)
}
