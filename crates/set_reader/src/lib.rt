// Reading a set: a venue and its message number, from the records that another engine wrote (document 02 (h), crate sets). The records are looked at first
// (crate set_check); each table of the venue is then filled from them (crate set_tables).
#![tactic(auto)]

ghost use Rattle.std.specs.Prelude.{◌≡◌};
ghost use Rattle.sets.specs.Set.{carries, not_read, read_set};
ghost use Rattle.set_reader.specs.Returned.{set_read};

use rules::Venue;

// What a reading call returns: its number, the venue, and its message number.
// A refused call gives a venue and a number too, so a `Result` would have each caller make them again from the error.
#[derive(Clone, Copy)]
pub struct Resumed {
    pub number: u8,
    pub venue: Venue,
    pub message: u32,
}

// The call ------------------------------------------------------------------------------------

// Refused: a fresh venue, and message number 0.
pub fn refused(number: u8) -> Resumed
    ensures { set_read result ≡ not_read number }
{
    Resumed {
        number,
        venue: arithmetic::fresh(),
        message: 0,
    }
}

// A venue is sound, and no message number in it is above its own.
fn is_carried(venue: Venue, number: u32) -> bool
    ensures { result ≡ carries number venue }
{
    let mut numbers = [0u32; places::SIZE];
    soundness::load_ready(&mut numbers, venue, number)
}

// The venue and the message number of the set that a memory holds: 0, or 16 where it holds none, or 9 where its venue is not sound or a message number in it
// is above its own.
pub fn read_set(memory: &[u8]) -> Resumed
    ensures { set_read result ≡ read_set memory.now }
{
    if let Err(e) = set_check::look(memory) {
        return refused(e.number());
    }
    let venue = set_tables::venue_told(memory);
    let message = set_tables::first_told(memory, 4);
    if !is_carried(venue, message) {
        return refused(9);
    }
    Resumed {
        number: 0,
        venue,
        message,
    }
}
