// Removal of legging orders from the venue as numbers: those that fail go, with their records (68) by rising place.
#![tactic(auto)]

ghost use Rattle.std.specs.Prelude.{◌≡◌, ◌||◌, ℕ, eqb, ◌<◌};
ghost use Rattle.rules.specs.declared.Verdict.TheVariants.{Fails};
ghost use Rattle.rules.specs.Removal.{remove, remove_of, fail_if};
ghost use Rattle.records.specs.Seen.{seen};
ghost use Rattle.records.specs.Stage.{stage, ◌does◌};
ghost use Rattle.places.specs.Layout.{size, venue_of, SameCounts};
ghost use Rattle.removal.specs.Causes.{remove_place, verdict_by, verdict_in};
ghost use Rattle.places.specs.Requirements.{PlacesReady};

use places::Numbers;
use rules::{Cause, Verdict};

// The legging order at place n goes; a free place stays as it is.
pub fn remove_one(numbers: &mut Numbers, n: usize, cause: Cause, out: &mut [u8], at: usize) -> usize
    requires { n < 16 }
    ensures result_after { stage (venue_of numbers.new) out.new result ≡ seen out.old at does remove (λ m _. fail_if (eqb m n) cause) (venue_of numbers.old) }
    ensures place_after { stage (venue_of numbers.new) out.new result ≡ seen out.old at does remove_place n (Fails cause) (venue_of numbers.old) }
    ensures counts { SameCounts numbers.old numbers.new }
{
    let l = places::legging_at(numbers, n);
    if l.quantity == 0 {
        return at;
    }
    let none = rules::NO_LEGGING;
    place_writes::put_legging(numbers, n, none);
    records::emit_removed(out, at, l.parent, (n / 2) as u8, (n % 2) as u8, cause)
}

// The legging orders of one parent go.
pub fn remove_of(
    numbers: &mut Numbers,
    parent: u32,
    cause: Cause,
    out: &mut [u8],
    at: usize,
) -> usize
    ensures result_after { stage (venue_of numbers.new) out.new result ≡ seen out.old at does remove_of parent cause (venue_of numbers.old) }
    ensures counts { SameCounts numbers.old numbers.new }
{
    let mut pos = at;
    for n in 0..16 {
        let l = places::legging_at(numbers, n);
        if l.parent != parent {
            continue;
        }
        pos = remove_one(numbers, n, cause, out, pos);
    }
    pos
}

// The legging orders at two places go, the one at the lesser place first.
pub fn remove_at(
    numbers: &mut Numbers,
    n1: usize,
    n2: usize,
    cause: Cause,
    out: &mut [u8],
    at: usize,
) -> usize
    requires { PlacesReady n1 n2 16 }
    ensures result_after { stage (venue_of numbers.new) out.new result ≡ seen out.old at does remove (λ n _. fail_if (eqb n n1 || eqb n n2) cause) (venue_of numbers.old) }
    ensures counts { SameCounts numbers.old numbers.new }
{
    if n1 == n2 {
        return remove_one(numbers, n1, cause, out, at);
    }
    if n2 < n1 {
        let pos = remove_one(numbers, n2, cause, out, at);
        return remove_one(numbers, n1, cause, out, pos);
    }
    let pos = remove_one(numbers, n1, cause, out, at);
    remove_one(numbers, n2, cause, out, pos)
}

// The verdict of a number: the order stands where it is no cause's.
#[tactic(auto, unfolding(crate::specs::Causes::verdict_by))]
pub fn verdict_by(x: u8) -> Verdict
    ensures { result ≡ verdict_by x }
{
    match x {
        1 => Verdict::Fails(Cause::Worse),
        2 => Verdict::Fails(Cause::Unpaired),
        3 => Verdict::Fails(Cause::Executed),
        4 => Verdict::Fails(Cause::Withdrawn),
        5 => Verdict::Fails(Cause::OutOfBand),
        6 => Verdict::Fails(Cause::NotOpen),
        7 => Verdict::Fails(Cause::Replaced),
        8 => Verdict::Fails(Cause::Touched),
        10 => Verdict::Fails(Cause::NoUnit),
        _ => Verdict::Stands,
    }
}

// The legging orders at the places that have a cause's number in `causes` go, each for that cause.
pub fn remove_by_causes(numbers: &mut Numbers, causes: u64, out: &mut [u8], at: usize) -> usize
    ensures result_after { stage (venue_of numbers.new) out.new result ≡ seen out.old at does remove (verdict_in causes) (venue_of numbers.old) }
    ensures counts { SameCounts numbers.old numbers.new }
{
    let mut pos = at;
    let mut n: usize = 0;
    let mut rest = causes;
    // No `for` over the places: the loop ends with the last cause.
    while 0 < rest {
        let place = n;
        n += 1;
        let x = (rest % 16) as u8;
        rest /= 16;
        let Verdict::Fails(cause) = verdict_by(x) else {
            continue;
        };
        pos = remove_one(numbers, place, cause, out, pos);
    }
    pos
}
