// Away prices, a status, a setting and a sweep, each by the fields of its message: their ranges, the refusals, and what it does.
#![tactic(auto)]

ghost use Rattle.std.specs.Prelude.{◌≡◌, false, ◌&&◌};
ghost use Rattle.rules.specs.declared.Message.TheVariants.{Away, Status, Sweep, Increment, Percent, LimitedSweep};
ghost use Rattle.rules.specs.Words.{within, is_series, is_status, is_away};
ghost use Rattle.rules.specs.Settings.{is_increment, is_percent, is_edition};
ghost use Rattle.rules.specs.Step.{set_away, set_status, set_figure};
ghost use Rattle.rules.specs.Standing.{settle};
ghost use Rattle.records.specs.Seen.{seen};
ghost use Rattle.records.specs.Stage.{stage, ◌does◌};
ghost use Rattle.places.specs.Layout.{venue_of, SameCounts};
ghost use Rattle.answers.specs.Steps.{answered_by, ranged_by, Steps};
ghost use Rattle.answers.specs.Requirements.{SoundNumbers};
ghost use Rattle.places.specs.Requirements.{RightSeries, RightFigure};

use answers::Stepped;
use places::Numbers;
use rules::{Edition, Listed};

// What an accepted message does -----------------------------------------------------------------

// A series' away prices anew; then settling.
fn set_away(numbers: &mut Numbers, s: u8, bid: u32, offer: u32, out: &mut [u8], at: usize) -> usize
    requires { RightSeries numbers.old s }
    ensures result_after { stage (venue_of numbers.new) out.new result ≡ seen out.old at does settle (set_away s bid offer (venue_of numbers.old)) }
    ensures counts { SameCounts numbers.old numbers.new }
{
    let status = prices::status_of(numbers, s);
    let x = Listed { status, bid, offer };
    place_writes::put_listed(numbers, usize::from(s), x);
    settling::settle_all(numbers, out, at)
}

// A series' status anew; then settling.
fn set_status(numbers: &mut Numbers, s: u8, status: u8, out: &mut [u8], at: usize) -> usize
    requires { RightSeries numbers.old s }
    ensures result_after { stage (venue_of numbers.new) out.new result ≡ seen out.old at does settle (set_status s status (venue_of numbers.old)) }
    ensures counts { SameCounts numbers.old numbers.new }
{
    let old = places::listed_at(numbers, usize::from(s));
    let x = Listed { status, ..old };
    place_writes::put_listed(numbers, usize::from(s), x);
    settling::settle_all(numbers, out, at)
}

// A figure's edition, entered by the message of this number at the first free place; then settling.
fn set_figure(
    numbers: &mut Numbers,
    number: u32,
    f: u8,
    x: u8,
    edition: u32,
    out: &mut [u8],
    at: usize,
) -> usize
    requires { RightFigure numbers.old f x }
    ensures result_after { stage (venue_of numbers.new) out.new result ≡ seen out.old at does settle (set_figure number f x edition (venue_of numbers.old)) }
    ensures counts { SameCounts numbers.old numbers.new }
{
    let i = places::free_edition(numbers);
    let e = Edition {
        edition,
        message: number,
        figure: f,
        value: x,
    };
    place_writes::put_edition(numbers, i, e);
    settling::settle_all(numbers, out, at)
}

// By kind ---------------------------------------------------------------------------------------

// 4: away prices. The steps are written out one by one, for the reason that `order_step` gives (order_messages).
pub fn away_step(
    numbers: &mut Numbers,
    number: u32,
    s: u8,
    bid: u32,
    offer: u32,
    out: &mut [u8],
) -> Stepped
    requires { SoundNumbers numbers.old }
    ensures { Steps (ranged_by (venue_of numbers.old) number (is_series s && is_away bid && is_away offer) false (Away s bid offer)) out.old result numbers.new out.new }
{
    if !wire::away_in_range(s, bid, offer) {
        return answers::refuse(numbers, number, 4, out);
    }
    let at = records::emit_answer(out, 0, number, 0, 0, 0);
    let end = set_away(numbers, s, bid, offer, out, at);
    answers::finish(numbers, number, out, end)
}

// 5: a status.
pub fn status_step(numbers: &mut Numbers, number: u32, s: u8, status: u8, out: &mut [u8]) -> Stepped
    requires { SoundNumbers numbers.old }
    ensures { Steps (ranged_by (venue_of numbers.old) number (is_series s && is_status status) false (Status s status)) out.old result numbers.new out.new }
{
    if !wire::status_in_range(s, status) {
        return answers::refuse(numbers, number, 4, out);
    }
    let at = records::emit_answer(out, 0, number, 0, 0, 0);
    let end = set_status(numbers, s, status, out, at);
    answers::finish(numbers, number, out, end)
}

// 6: a sweep.
pub fn sweep_step(numbers: &mut Numbers, number: u32, out: &mut [u8]) -> Stepped
    requires { SoundNumbers numbers.old }
    ensures { Steps (answered_by (venue_of numbers.old) number Sweep) out.old result numbers.new out.new }
{
    let at = records::emit_answer(out, 0, number, 0, 0, 0);
    let end = sweeps::sweep(numbers, number, out, at);
    answers::finish(numbers, number, out, end)
}

// 7: a series' increment.
pub fn increment_step(
    numbers: &mut Numbers,
    number: u32,
    s: u8,
    x: u8,
    edition: u32,
    out: &mut [u8],
) -> Stepped
    requires { SoundNumbers numbers.old }
    ensures { Steps (ranged_by (venue_of numbers.old) number (is_series s && is_increment x && is_edition edition) false (Increment s x edition)) out.old result numbers.new out.new }
{
    if !wire::increment_in_range(s, x) {
        return answers::refuse(numbers, number, 4, out);
    }
    let used = !refusals::is_idle(numbers, s);
    if let Err(refusal) = refusals::edition_refusal(numbers, edition, used) {
        return answers::refuse(numbers, number, arithmetic::refusal_number(refusal), out);
    }
    let at = records::emit_answer(out, 0, number, 0, 0, 0);
    let end = set_figure(numbers, number, s, x, edition, out, at);
    answers::finish(numbers, number, out, end)
}

// 8: the percentage.
pub fn percent_step(
    numbers: &mut Numbers,
    number: u32,
    x: u8,
    edition: u32,
    out: &mut [u8],
) -> Stepped
    requires { SoundNumbers numbers.old }
    ensures { Steps (ranged_by (venue_of numbers.old) number (is_percent x && is_edition edition) false (Percent x edition)) out.old result numbers.new out.new }
{
    if 50 < x {
        return answers::refuse(numbers, number, 4, out);
    }
    if let Err(refusal) = refusals::edition_refusal(numbers, edition, false) {
        return answers::refuse(numbers, number, arithmetic::refusal_number(refusal), out);
    }
    let at = records::emit_answer(out, 0, number, 0, 0, 0);
    let end = set_figure(numbers, number, 8, x, edition, out, at);
    answers::finish(numbers, number, out, end)
}

// 11: a limited sweep.
pub fn limited_step(numbers: &mut Numbers, number: u32, n: u8, out: &mut [u8]) -> Stepped
    requires { SoundNumbers numbers.old }
    ensures { Steps (ranged_by (venue_of numbers.old) number (within 1 32 n) false (LimitedSweep n)) out.old result numbers.new out.new }
{
    if !wire::sweep_in_range(n) {
        return answers::refuse(numbers, number, 4, out);
    }
    let at = records::emit_answer(out, 0, number, 0, 0, 0);
    let swept = sweeps::limited_sweep(numbers, number, n, out, at);
    answers::finish(numbers, number, out, swept.at)
}
