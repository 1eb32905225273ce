// A sweep and a limited sweep, with their settling.
// Each function says in one equation the venue that it leaves and all that it writes: those of its definition.
#![tactic(auto)]

ghost use Rattle.std.specs.Prelude.{◌≡◌, ℕ, ◌++◌, ◌+◌, ◌-◌, ◌≤◌, take};
ghost use Rattle.rules.specs.declared.Venue.{Venue};
ghost use Rattle.rules.specs.Effects.{Effect};
ghost use Rattle.rules.specs.Generation.{generate};
ghost use Rattle.rules.specs.Complex.{going_round, examined, id_reached, each_of};
ghost use Rattle.rules.specs.Complex as complex;
ghost use Rattle.records.specs.Seen.{seen};
ghost use Rattle.records.specs.Stage.{stage, ◌does◌};
ghost use Rattle.places.specs.Layout.{complexes_used, venue_of, SameCounts, Dense};
ghost use Rattle.places.specs.Requirements.{RightComplex};
ghost use Rattle.sweeps.specs.Round.{places_from, round_places};
ghost use Rattle.sweeps.specs.Requirements.{DenseRising, RightPlaces, RightRound, RoundReady};

use places::Numbers;

// What a sweep does for one order after the other.
trait Task: Copy {
    // what it comes to at a place
    ghost effect: { Self → ℕ → Venue → Effect };

    // It is done for the order at place i.
    fn perform(self, numbers: &mut Numbers, i: usize, out: &mut [u8], at: usize) -> usize
        requires { RightComplex numbers.old i }
        ensures result_after { stage (venue_of numbers.new) out.new result ≡ seen out.old at does effect self i (venue_of numbers.old) }
        ensures counts { SameCounts numbers.old numbers.new };
}

// An order is worked; at a freed place nothing is done.
#[derive(Clone, Copy)]
struct Working;

impl Task for Working {
    ghost effect = { λ _. complex.work };

    fn perform(self, numbers: &mut Numbers, i: usize, out: &mut [u8], at: usize) -> usize {
        work::work(numbers, i, out, at)
    }
}

// Generation for an order, in the message of this number.
#[derive(Clone, Copy)]
struct Generating {
    number: u32,
}

impl Task for Generating {
    ghost effect = { λ g. generate g.number };

    fn perform(self, numbers: &mut Numbers, i: usize, out: &mut [u8], at: usize) -> usize {
        generation::generate_order(numbers, self.number, i, out, at)
    }
}

// A task for the orders at `count` places from `first` on.
fn at_places<T: Task>(
    task: T,
    numbers: &mut Numbers,
    first: usize,
    count: usize,
    out: &mut [u8],
    at: usize,
) -> usize
    requires { RightPlaces numbers.old first count }
    ensures result_after { stage (venue_of numbers.new) out.new result ≡ seen out.old at does each_of (T.effect task) (places_from first count) (venue_of numbers.old) }
    ensures counts { SameCounts numbers.old numbers.new }
{
    let mut pos = at;
    for k in first..first + count {
        pos = task.perform(numbers, k, out, pos);
    }
    pos
}

// All resting complex orders are worked; then settling, once, and generation. Between messages they rest at the first places, in rising id, and none moves
// till the end.
pub fn sweep(numbers: &mut Numbers, number: u32, out: &mut [u8], at: usize) -> usize
    requires { Dense numbers.old }
    ensures result_after { stage (venue_of numbers.new) out.new result ≡ seen out.old at does complex.sweep number (venue_of numbers.old) }
    ensures counts { SameCounts numbers.old numbers.new }
{
    let used = places::complexes_used(numbers);
    let worked = at_places(Working, numbers, 0, used, out, at);
    let settled = settling::settle_all(numbers, out, worked);
    at_places(Generating { number }, numbers, 0, used, out, settled)
}

// The places that a limited sweep looks at: `above` of them from `first` on, and then `others` from 0 on.
#[derive(Clone, Copy)]
struct Round {
    first: usize,
    above: usize,
    others: usize,
}

// What a limited sweep comes to: where its records end, and the number of orders that it looked at.
#[derive(Clone, Copy)]
pub struct Swept {
    pub at: usize,
    pub looked: u8,
}

// The first place whose order has an id above the one reached, where going round starts: ids rise with the places.
fn round_start(numbers: &Numbers) -> usize
    requires { DenseRising numbers.now }
    ensures result_value { places_from result (complexes_used numbers.now - result) ++ places_from 0 result ≡ going_round (venue_of numbers.now) }
    ensures within { result ≤ complexes_used numbers.now }
{
    let used = places::complexes_used(numbers);
    let reached = places::reached_id(numbers);
    for k in 0..used {
        let c = places::complex_at(numbers, k);
        if reached < c.id {
            return k;
        }
    }
    used
}

// The places of the n orders to look at, or of all where fewer rest.
fn round_of(numbers: &Numbers, n: u8) -> Round
    requires { DenseRising numbers.now }
    ensures result_value { round_places result ≡ take n (going_round (venue_of numbers.now)) }
    ensures within { (result.first + result.above ≤ complexes_used numbers.now) × (result.others ≤ complexes_used numbers.now) }
{
    let used = places::complexes_used(numbers);
    let first = round_start(numbers);
    let most = usize::from(n);
    let above = used - first;
    if most <= above {
        return Round {
            first,
            above: most,
            others: 0,
        };
    }
    if most - above <= first {
        return Round {
            first,
            above,
            others: most - above,
        };
    }
    Round {
        first,
        above,
        others: first,
    }
}

// The id at the last of these places; where there is none, the one reached before.
fn last_looked(numbers: &Numbers, r: Round) -> u32
    requires { RoundReady numbers.now r }
    ensures { result ≡ id_reached (venue_of numbers.now) (round_places r) }
{
    if 0 < r.others {
        let c = places::complex_at(numbers, r.others - 1);
        return c.id;
    }
    if 0 < r.above {
        let c = places::complex_at(numbers, r.first + r.above - 1);
        return c.id;
    }
    places::reached_id(numbers)
}

// A task for the orders to look at, in the order of the round.
fn at_round<T: Task>(task: T, numbers: &mut Numbers, r: Round, out: &mut [u8], at: usize) -> usize
    requires { RightRound numbers.old r }
    ensures result_after { stage (venue_of numbers.new) out.new result ≡ seen out.old at does each_of (T.effect task) (round_places r) (venue_of numbers.old) }
    ensures counts { SameCounts numbers.old numbers.new }
{
    let pos = at_places(task, numbers, r.first, r.above, out, at);
    at_places(task, numbers, 0, r.others, out, pos)
}

// A sweep of at most n resting orders, which starts after the last id that one looked at: how many it looks at is told first. Its places stay
// as they are till its end, whatever becomes of the orders there.
pub fn limited_sweep(numbers: &mut Numbers, number: u32, n: u8, out: &mut [u8], at: usize) -> Swept
    requires { DenseRising numbers.old }
    ensures at_after { stage (venue_of numbers.new) out.new result.at ≡ seen out.old at does complex.limited_sweep number n (venue_of numbers.old) }
    ensures counts { SameCounts numbers.old numbers.new }
    ensures looked { result.looked ≡ examined n (venue_of numbers.old) }
{
    let round = round_of(numbers, n);
    let looked = (round.above + round.others) as u8;
    let id = last_looked(numbers, round);
    place_writes::put_reached(numbers, id);
    let told = records::emit_looked(out, at, looked);
    let worked = at_round(Working, numbers, round, out, told);
    let settled = settling::settle_all(numbers, out, worked);
    let end = at_round(Generating { number }, numbers, round, out, settled);
    Swept { at: end, looked }
}
