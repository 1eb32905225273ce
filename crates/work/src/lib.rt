// How a complex order is worked: crossed, touched, and legged in, a unit at a time.
// Each function says in one equation the venue that it leaves and all that it writes: those of its definition.
#![tactic(auto)]

ghost use Rattle.std.specs.Prelude.{◌≡◌, ◌*◌, ◌/◌};
ghost use Rattle.rules.specs.declared.Venue.{Venue};
ghost use Rattle.rules.specs.Effects.{repeat};
ghost use Rattle.rules.specs.Complex.{legs_in, units_in, leg_in_turn};
ghost use Rattle.rules.specs.Complex as complex;
ghost use Rattle.records.specs.Seen.{seen};
ghost use Rattle.records.specs.Stage.{stage, ◌does◌};
ghost use Rattle.places.specs.Layout.{venue_of, SameCounts};
ghost use Rattle.levels.specs.Grid.{TakenOf};
ghost use Rattle.levels.specs.Requirements.{TakenFigured};
ghost use Rattle.places.specs.Requirements.{RightComplex};

use levels::TakenLevels;
use places::Numbers;
use rules::Complex;

// The best regular prices a and p that c would take net to its limit or less, and that net is in band.
fn can_leg_in(numbers: &Numbers, taken: TakenLevels, c: Complex, a: u32, p: u32) -> bool
    requires { TakenFigured numbers.now taken c }
    ensures { result ≡ legs_in (venue_of numbers.now) c a p }
{
    if c.quantity == 0 {
        return false;
    }
    if a == 0 {
        return false;
    }
    if p == 0 {
        return false;
    }
    let net = arithmetic::net_of(c.ratio1, c.side1, a, c.ratio2, c.side2, p);
    let limit = arithmetic::limit_of(c);
    if limit < net {
        return false;
    }
    prices::in_band(numbers, taken, c, net)
}

// The contracts of one leg in k units.
fn contracts(ratio: u8, k: u32) -> u64
    ensures { result ≡ ratio * k }
{
    u64::from(ratio) * u64::from(k)
}

// k units of the order at place i, at prices a and p: the first leg's trades, the second's, the pair.
pub fn leg_in(
    numbers: &mut Numbers,
    i: usize,
    a: u32,
    p: u32,
    k: u32,
    out: &mut [u8],
    at: usize,
) -> usize
    requires { RightComplex numbers.old i }
    ensures result_after { stage (venue_of numbers.new) out.new result ≡ seen out.old at does complex.leg_in i a p k (venue_of numbers.old) }
    ensures counts { SameCounts numbers.old numbers.new }
{
    let c = places::complex_at(numbers, i);
    let net = arithmetic::net_of(c.ratio1, c.side1, a, c.ratio2, c.side2, p);
    let one = contracts(c.ratio1, k);
    let two = contracts(c.ratio2, k);
    let first = trades::trade_at_price(numbers, c.id, c.series1, c.side1, a, one, out, at);
    let second = trades::trade_at_price(numbers, c.id, c.series2, c.side2, p, two, out, first);
    trades::pair_off(numbers, i, c.id, net, k, out, second)
}

// The units that a size fills, each of `ratio` contracts; none where that is 0.
fn units(n: u64, ratio: u8) -> u64
    ensures { result ≡ n / ratio }
{
    if ratio == 1 {
        return n;
    }
    if ratio == 0 {
        return 0;
    }
    n / u64::from(ratio)
}

// As many units as c has open and the sizes at the best prices fill; taken has their levels.
fn units_in(taken: TakenLevels, c: Complex) -> u32
    ensures { (v : Venue) → TakenOf taken c v.regular → result ≡ units_in v c }
{
    let one = taken.first;
    let two = taken.second;
    let open = trades::at_most(c.quantity, units(one.size, c.ratio1));
    trades::at_most(open, units(two.size, c.ratio2))
}

// The order at place i legs in while the best prices allow it and fill a unit, in at most `quantity` turns.
pub fn leg_in_all(
    numbers: &mut Numbers,
    i: usize,
    quantity: u32,
    out: &mut [u8],
    at: usize,
) -> usize
    requires { RightComplex numbers.old i }
    ensures result_after { stage (venue_of numbers.new) out.new result ≡ seen out.old at does repeat quantity (leg_in_turn i) (venue_of numbers.old) }
    ensures counts { SameCounts numbers.old numbers.new }
{
    let mut pos = at;
    for _turn in 0..quantity {
        let c = places::complex_at(numbers, i);
        let taken = levels::taken_at(numbers, c);
        let first = taken.first;
        let second = taken.second;
        if !can_leg_in(numbers, taken, c, first.price, second.price) {
            return pos;
        }
        let k = units_in(taken, c);
        if k == 0 {
            return pos;
        }
        pos = leg_in(numbers, i, first.price, second.price, k, out, pos);
    }
    pos
}

// The order at place i crosses, touches and legs in, if neither of its series is closed. At a free place nothing is done.
pub fn work(numbers: &mut Numbers, i: usize, out: &mut [u8], at: usize) -> usize
    requires { RightComplex numbers.old i }
    ensures result_after { stage (venue_of numbers.new) out.new result ≡ seen out.old at does complex.work i (venue_of numbers.old) }
    ensures counts { SameCounts numbers.old numbers.new }
{
    let c = places::complex_at(numbers, i);
    if c.quantity == 0 {
        return at;
    }
    if prices::any_closed(numbers, c) {
        return at;
    }
    let crossed = crossing::cross_all(numbers, i, out, at);
    let touched = crossing::touch(numbers, i, out, crossed);
    leg_in_all(numbers, i, c.quantity, out, touched)
}
