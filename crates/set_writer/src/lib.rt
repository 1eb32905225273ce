// A venue and its message number, written as a set of records into lent memory.
#![tactic(auto)]

ghost use Rattle.std.specs.Prelude.{◌≡◌, length};
ghost use Rattle.places.specs.Layout.{venue_of, Dense};
ghost use Rattle.sets.specs.Set.{set_of, joined, not_written, write_set};
ghost use Rattle.set_parts.specs.SetMemory.{set_memory, ◌adds◌};
ghost use Rattle.set_writer.specs.Saving.{error_number, saved_of};

use places::Numbers;
use rules::Venue;

// Why no set is written: no set carries the venue with its message number, or the memory is shorter than the set.
#[derive(Clone, Copy, PartialEq, Eq, Debug)]
pub enum SaveError {
    NotCarried,
    NoRoom,
}

impl SaveError {
    // The number of an error.
    pub fn number(self) -> u8
        ensures { result ≡ error_number self }
    {
        match self {
            SaveError::NotCarried => 9,
            SaveError::NoRoom => 15,
        }
    }
}

// The set ---------------------------------------------------------------------------------------

// The set of the venue that the numbers stand for, from the front of the memory on; a position past the end where it does not fit.
fn put_set(numbers: &Numbers, number: u32, out: &mut [u8]) -> usize
    requires { Dense numbers.now }
    ensures { set_memory out.new result ≡ set_memory out.old 0 adds joined (set_of number (venue_of numbers.now)) }
{
    let first = set_parts::put_first(out, 0, number, places::last_id(numbers));
    let series = set_parts::put_series(numbers, out, first);
    let editions = set_parts::put_editions(numbers, out, series);
    let orders = set_parts::put_orders(numbers, out, editions);
    let leggings = set_parts::put_leggings(numbers, out, orders);
    let generations = set_parts::put_all_generations(numbers, out, leggings);
    set_parts::put_reached(out, generations, places::reached_id(numbers))
}

// A call that is refused: the memory all zero.
fn refuse(error: SaveError, memory: &mut [u8]) -> Result<usize, SaveError>
    ensures { saved_of result memory.new ≡ not_written (error_number error) (length memory.old) }
{
    records::zero_from(memory, 0);
    Err(error)
}

// A venue and the number of its last message, written as a set from the front of the memory on, and how many bytes the set has. Zeros follow it.
pub fn write_set(venue: Venue, number: u32, memory: &mut [u8]) -> Result<usize, SaveError>
    ensures { saved_of result memory.new ≡ write_set number venue (length memory.old) }
{
    let mut numbers = [0u32; places::SIZE];
    if !soundness::load_ready(&mut numbers, venue, number) {
        return refuse(SaveError::NotCarried, memory);
    }
    let written = put_set(&numbers, number, memory);
    if memory.len() < written {
        return refuse(SaveError::NoRoom, memory);
    }
    records::zero_from(memory, written);
    Ok(written)
}
