// A message's answer: a refusal alone, or the record that is written first and set when all that the message does is done.
#![tactic(auto)]

ghost use Rattle.rules.specs.Effects.{nothing};
ghost use Rattle.rules.specs.Step.{answered};
ghost use Rattle.places.specs.Layout.{venue_of, Dense, Right};
ghost use Rattle.answers.specs.Steps.{Finishes, Steps};

use places::Numbers;

// A message's refusal (0: accepted), and the position after its records. A refused message has its answer as a record, so this is no Result.
#[derive(Clone, Copy)]
pub struct Stepped {
    pub refused: u8,
    pub written: usize,
}

// A refused message: its answer, and nothing else.
pub fn refuse(numbers: &Numbers, number: u32, refused: u8, out: &mut [u8]) -> Stepped
    requires { Dense numbers.now }
    ensures { Steps (answered number refused (nothing (venue_of numbers.now))) out.old result numbers.now out.new }
{
    let mask = places::mask_of(numbers);
    let count = book::count_of(mask);
    let written = records::emit_answer(out, 0, number, refused, mask, count);
    Stepped { refused, written }
}

// When an accepted message's effects are done: the gaps that they left are closed, and its answer, written first, is set.
pub fn finish(numbers: &mut Numbers, number: u32, out: &mut [u8], end: usize) -> Stepped
    requires { Right numbers.old }
    ensures { Finishes number numbers.old out.old end result numbers.new out.new }
{
    place_writes::close_gaps(numbers);
    let mask = places::mask_of(numbers);
    let count = book::count_of(mask);
    records::set_answer(out, 0, number, 0, mask, count);
    Stepped {
        refused: 0,
        written: end,
    }
}
