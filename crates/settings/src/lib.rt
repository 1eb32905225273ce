// Request (d): what held when. The increments and the percent in force at a message number.
#![tactic(auto)]

ghost use Rattle.std.specs.Prelude.{◌≡◌, [], ◌∷◌, map};
ghost use Rattle.rules.specs.Calls as calls;
ghost use Rattle.settings.specs.Forced.{value_after, value_at};

use rules::{Edition, Settings, Venue};

// A figure's value after an edition of the row: the edition's, where it sets the figure and its message is numbered no higher.
fn value_after(e: Edition, number: u32, f: u8, x: u8) -> u8
    ensures { result ≡ value_after number f x e }
{
    if number < e.message {
        return x;
    }
    if e.edition == 0 {
        return x;
    }
    if e.figure != f {
        return x;
    }
    e.value
}

// A figure in force at a message number: the value of its last edition entered by then, else that of edition 0.
fn value_at(editions: &[Edition; 32], number: u32, f: u8) -> u8
    ensures { result ≡ value_at editions.now number f }
{
    let mut x = arithmetic::base_figure(f);
    for e in editions {
        x = value_after(*e, number, f, x);
    }
    x
}

// The eight increments. Each is written out: a `map` over the numbers 0 to 7 would keep a table of them in the archives.
fn increments_at(editions: &[Edition; 32], number: u32) -> [u8; 8]
    ensures { result ≡ map (value_at editions.now number) (0 ∷ 1 ∷ 2 ∷ 3 ∷ 4 ∷ 5 ∷ 6 ∷ 7 ∷ []) }
{
    [
        value_at(editions, number, 0),
        value_at(editions, number, 1),
        value_at(editions, number, 2),
        value_at(editions, number, 3),
        value_at(editions, number, 4),
        value_at(editions, number, 5),
        value_at(editions, number, 6),
        value_at(editions, number, 7),
    ]
}

// The settings at a message number, whatever it is. An unsound venue's are 9 and zeros.
pub fn settings(venue: Venue, number: u32) -> Settings
    ensures { result ≡ calls.settings venue number }
{
    let mut numbers = [0u32; places::SIZE];
    if !soundness::load_sound(&mut numbers, venue) {
        return Settings {
            number: 9,
            increments: [0; 8],
            percent: 0,
        };
    }
    let increments = increments_at(&venue.editions, number);
    let percent = value_at(&venue.editions, number, 8);
    Settings {
        number: 0,
        increments,
        percent,
    }
}
