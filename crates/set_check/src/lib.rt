// The records of a set (document 02 (h), crate sets) looked at in one pass, for their order and their places.
#![tactic(auto)]

ghost use Rattle.std.specs.Prelude.{◌≡◌, true, not, ◌&&◌, [], ◌≤◌, ◌<◌, eqb, drop};
ghost use Rattle.rules.specs.Base.{held};
ghost use Rattle.rules.specs.Words.{place_of, is_series, is_side, one_to_one};
ghost use Rattle.rules.specs.Bytes.{u8_at, u32_at, kind_field};
ghost use Rattle.sets.specs.Set.{set_length, part, sort_key, generation_told, tells_edition, tells_regular, tells_complex, tells_legging, tells_generation, of_whole, of_short, has_place, complex_told};
ghost use Rattle.sets.specs.Set.{row, held_in};
ghost use Rattle.set_check.specs.Order.{error_number, number_of, front_of, none_read, opens, of_this, same_series, may_stand, is_next, opened_after, is_whole, run_with, onward, few, looked_at};

// Records -------------------------------------------------------------------------------------

// What stands at a position: the end of the set, what is torn or of a kind or length not the set's, or a record of this length.
#[derive(Clone, Copy, PartialEq, Eq, Debug)]
pub enum Front {
    End,
    Broken,
    Record(u16),
}

// The length of a message's record in a set: a setting has its message number after it. It compares in order, as `length_of` does.
fn early_length(kind: u16) -> u16
    requires { kind ≤ 10 }
    ensures { result ≡ set_length kind }
{
    if kind <= 2 {
        return arithmetic::length_of(kind);
    }
    if kind <= 3 {
        return 0;
    }
    if kind <= 5 {
        return arithmetic::length_of(kind);
    }
    if kind <= 6 {
        return 0;
    }
    if kind <= 7 {
        return 14;
    }
    if kind <= 8 {
        return 13;
    }
    arithmetic::length_of(kind)
}

// The length of each kind of record; 0 for what is none.
fn set_length(kind: u16) -> u16
    ensures { result ≡ set_length kind }
{
    if kind <= 10 {
        return early_length(kind);
    }
    if kind < 80 {
        return 0;
    }
    if kind <= 81 {
        return 12;
    }
    if kind <= 82 {
        return 18;
    }
    if kind <= 83 {
        return 9;
    }
    if kind == 84 {
        return 8;
    }
    0
}

// What stands at a position of a memory.
fn front_at(memory: &[u8], at: usize) -> Front
    ensures { result ≡ front_of (drop at memory.now) }
{
    if wire::u16_at(memory, at) == 0 {
        return Front::End;
    }
    let size = reader::head_length(reader::message_head(memory, at));
    if size == 0 {
        return Front::Broken;
    }
    if size != set_length(wire::u16_at(memory, at + 2)) {
        return Front::Broken;
    }
    Front::Record(size)
}

// The kind of a record.
pub fn kind_of(r: &[u8]) -> u16
    ensures { result ≡ kind_field r.now }
{
    wire::u16_at(r, 2)
}

// A record tells an edition: of kind 7 or 8.
pub fn tells_edition(r: &[u8]) -> bool
    ensures { result ≡ tells_edition r.now }
{
    matches!(kind_of(r), 7 | 8)
}

// A record tells a resting regular order: of kind 1 or 9.
pub fn tells_regular(r: &[u8]) -> bool
    ensures { result ≡ tells_regular r.now }
{
    matches!(kind_of(r), 1 | 9)
}

// A record tells a resting complex order: of kind 2 or 10.
pub fn tells_complex(r: &[u8]) -> bool
    ensures { result ≡ tells_complex r.now }
{
    matches!(kind_of(r), 2 | 10)
}

// A record tells a legging order: of kind 82.
pub fn tells_legging(r: &[u8]) -> bool
    ensures { result ≡ tells_legging r.now }
{
    kind_of(r) == 82
}

// A record tells a generation: of kind 83.
pub fn tells_generation(r: &[u8]) -> bool
    ensures { result ≡ tells_generation r.now }
{
    kind_of(r) == 83
}

// Order ---------------------------------------------------------------------------------------

// The part of a set that a record is of, after its first ones: editions, resting orders, legging orders, generations, the id reached.
// It stays a number, as definition `part` has it: `may_stand` compares parts by it.
fn part_of(r: &[u8]) -> u8
    ensures { result ≡ part r.now }
{
    if tells_edition(r) {
        return 1;
    }
    if tells_regular(r) {
        return 2;
    }
    if tells_complex(r) {
        return 2;
    }
    if tells_legging(r) {
        return 3;
    }
    if tells_generation(r) {
        return 4;
    }
    if kind_of(r) == 84 {
        return 5;
    }
    0
}

// The place of a legging order.
pub fn place_of(r: &[u8]) -> u32
    ensures { result ≡ place_of (u8_at r.now 8) (u8_at r.now 9) }
{
    let series = u32::from(wire::u8_at(r, 8));
    let side = u32::from(wire::u8_at(r, 9));
    2 * series + side
}

// By what the records of a part rise: edition, id, place; of generations the series.
fn sort_key(r: &[u8]) -> u32
    ensures { result ≡ sort_key r.now }
{
    let kind = kind_of(r);
    if kind == 7 {
        return wire::u32_at(r, 6);
    }
    if kind == 8 {
        return wire::u32_at(r, 5);
    }
    let part = part_of(r);
    if part == 2 {
        return wire::u32_at(r, 4);
    }
    if part == 3 {
        return place_of(r);
    }
    if part == 4 {
        return u32::from(wire::u8_at(r, 4));
    }
    0
}

// The message number that a generation's record tells.
pub fn told_of(r: &[u8]) -> u32
    ensures { result ≡ generation_told r.now }
{
    wire::u32_at(r, 5)
}

// Where the reading stands: how many of the first records were read, whether the set is a whole one, part, sort key and message number of the record before, how
// many of each part there were and of generations of the present series, and whether all had a place.
#[derive(Clone, Copy)]
pub struct SetProgress {
    opened: u8,
    whole: bool,
    part: u8,
    key: u32,
    told: u32,
    editions: u8,
    regulars: u8,
    complexes: u8,
    leggings: u8,
    run: u8,
    placed: bool,
}

// Where the reading stands before the first record.
fn none_read() -> SetProgress
    ensures { result ≡ none_read }
{
    SetProgress {
        opened: 0,
        whole: false,
        part: 0,
        key: 0,
        told: 0,
        editions: 0,
        regulars: 0,
        complexes: 0,
        leggings: 0,
        run: 0,
        placed: true,
    }
}

// One of the first records: of kind 80 or 81, and then of kinds 5 and 4 for each series in turn.
fn is_opening(st: SetProgress, r: &[u8]) -> bool
    ensures { result ≡ opens st r.now }
{
    let kind = kind_of(r);
    let opened = st.opened;
    if opened == 0 {
        if kind == 80 {
            return true;
        }
        return kind == 81;
    }
    let due = 4 + u16::from(opened % 2);
    if kind != due {
        return false;
    }
    wire::u8_at(r, 4) == (opened - 1) / 2
}

// A record of a whole set.
fn of_whole(r: &[u8]) -> bool
    ensures { result ≡ of_whole r.now }
{
    if part_of(r) == 0 {
        return false;
    }
    kind_of(r) != 1
}

// A record of a short set.
fn of_short(r: &[u8]) -> bool
    ensures { result ≡ of_short r.now }
{
    let part = part_of(r);
    if part == 3 {
        return true;
    }
    if part != 2 {
        return false;
    }
    kind_of(r) != 9
}

// A record is one of the kind of set that is read, whole or short.
fn of_this(st: SetProgress, r: &[u8]) -> bool
    ensures { result ≡ of_this st r.now }
{
    if st.whole {
        return of_whole(r);
    }
    of_short(r)
}

// A generation is of the series of the record before it, a generation too.
fn same_series(st: SetProgress, r: &[u8]) -> bool
    ensures { result ≡ same_series st r.now }
{
    if st.part != 4 {
        return false;
    }
    st.key == sort_key(r)
}

// A record may stand after the one before it.
fn may_stand(st: SetProgress, r: &[u8]) -> bool
    ensures { result ≡ may_stand st r.now }
{
    let part = part_of(r);
    if st.part < part {
        return true;
    }
    if st.part != part {
        return false;
    }
    if st.key < sort_key(r) {
        return true;
    }
    if !same_series(st, r) {
        return false;
    }
    st.told <= told_of(r)
}

// A record may stand where the reading stands.
fn is_next(st: SetProgress, r: &[u8]) -> bool
    ensures { result ≡ is_next st r.now }
{
    if st.opened < 17 {
        return is_opening(st, r);
    }
    if !of_this(st, r) {
        return false;
    }
    may_stand(st, r)
}

// Places --------------------------------------------------------------------------------------

// What a kind 7 tells has a place.
fn increment_placed(r: &[u8]) -> bool
    ensures { result ≡ (is_series (u8_at r.now 4) && held (u32_at r.now 6)) }
{
    if 7 < wire::u8_at(r, 4) {
        return false;
    }
    wire::u32_at(r, 6) != 0
}

// What a kind 2 or 10 tells has a place.
fn complex_placed(r: &[u8]) -> bool
    ensures { result ≡ (held (u32_at r.now 17) && not (eqb (kind_field r.now) 10 && one_to_one (complex_told r.now))) }
{
    if wire::u32_at(r, 17) == 0 {
        return false;
    }
    if kind_of(r) != 10 {
        return true;
    }
    if wire::u8_at(r, 21) != 1 {
        return true;
    }
    wire::u8_at(r, 22) != 1
}

// What a kind 82 tells has a place.
fn legging_placed(r: &[u8]) -> bool
    ensures { result ≡ (is_series (u8_at r.now 8) && is_side (u8_at r.now 9) && held (u32_at r.now 14)) }
{
    if 7 < wire::u8_at(r, 8) {
        return false;
    }
    if 1 < wire::u8_at(r, 9) {
        return false;
    }
    wire::u32_at(r, 14) != 0
}

// What a kind 83 tells has a place.
fn generation_placed(r: &[u8]) -> bool
    ensures { result ≡ (is_series (u8_at r.now 4) && held (u32_at r.now 5)) }
{
    if 7 < wire::u8_at(r, 4) {
        return false;
    }
    wire::u32_at(r, 5) != 0
}

// A venue has a place for what a record tells.
fn has_place(r: &[u8]) -> bool
    ensures { result ≡ has_place r.now }
{
    let kind = kind_of(r);
    if kind == 7 {
        return increment_placed(r);
    }
    if kind == 8 {
        return wire::u32_at(r, 5) != 0;
    }
    if tells_regular(r) {
        return wire::u32_at(r, 14) != 0;
    }
    if tells_complex(r) {
        return complex_placed(r);
    }
    if tells_legging(r) {
        return legging_placed(r);
    }
    if tells_generation(r) {
        return generation_placed(r);
    }
    if kind != 84 {
        return true;
    }
    wire::u32_at(r, 4) != 0
}

// One pass ------------------------------------------------------------------------------------

// How many of the first records are read after one more record.
fn opened_after(st: SetProgress) -> u8
    ensures { result ≡ opened_after st }
{
    let opened = st.opened;
    if opened < 17 {
        return opened + 1;
    }
    opened
}

// The set is a whole one, as its first record says.
fn is_whole(st: SetProgress, r: &[u8]) -> bool
    ensures { result ≡ is_whole st r.now }
{
    if st.opened == 0 {
        return kind_of(r) == 80;
    }
    st.whole
}

// How many generations of the present series there are with this record.
fn run_with(st: SetProgress, r: &[u8]) -> u8
    requires { few st ≡ true }
    ensures { result ≡ run_with st r.now }
{
    let more = u8::from(tells_generation(r));
    if same_series(st, r) {
        return st.run + more;
    }
    more
}

// This record and every record before it has a place.
fn still_placed(st: SetProgress, r: &[u8]) -> bool
    ensures { result ≡ (st.placed && has_place r.now) }
{
    if !st.placed {
        return false;
    }
    has_place(r)
}

// What a record leaves of the standing before it.
fn passed(st: SetProgress, r: &[u8]) -> SetProgress
    requires { few st ≡ true }
    ensures { result ≡ onward st r.now }
{
    SetProgress {
        opened: opened_after(st),
        whole: is_whole(st, r),
        part: part_of(r),
        key: sort_key(r),
        told: told_of(r),
        editions: st.editions + u8::from(tells_edition(r)),
        regulars: st.regulars + u8::from(tells_regular(r)),
        complexes: st.complexes + u8::from(tells_complex(r)),
        leggings: st.leggings + u8::from(tells_legging(r)),
        run: run_with(st, r),
        placed: still_placed(st, r),
    }
}

// Not one too many.
fn are_few(st: SetProgress) -> bool
    ensures { result ≡ few st }
{
    if 32 < st.editions {
        return false;
    }
    if 128 < st.regulars {
        return false;
    }
    if 32 < st.complexes {
        return false;
    }
    if 16 < st.leggings {
        return false;
    }
    st.run <= 20
}

// Why a set is refused: what a memory holds is no set, or it tells what no venue has a place for.
#[derive(Clone, Copy, PartialEq, Eq, Debug)]
pub enum SetError {
    NoSet,
    NoPlace,
}

impl SetError {
    // The number of an error.
    pub fn number(self) -> u8
        ensures { result ≡ error_number self }
    {
        match self {
            SetError::NoSet => 16,
            SetError::NoPlace => 9,
        }
    }
}

// The answer where the set ends.
fn ended(st: SetProgress) -> Result<(), SetError>
    ensures { number_of result ≡ looked_at st (row []) }
{
    if st.opened < 17 {
        return Err(SetError::NoSet);
    }
    if !st.placed {
        return Err(SetError::NoPlace);
    }
    Ok(())
}

// Whether a memory holds a set, and one that a venue has a place for.
// The walk is by position, as each record's length says where the next one stands, and what is broken ends it.
pub fn look(memory: &[u8]) -> Result<(), SetError>
    ensures { number_of result ≡ looked_at none_read (held_in memory.now) }
{
    let mut st = none_read();
    let mut at: usize = 0;
    loop {
        let front = front_at(memory, at);
        match front {
            Front::End => return ended(st),
            Front::Broken => return Err(SetError::NoSet),
            Front::Record(size) => {
                let next = at + usize::from(size);
                if !is_next(st, &memory[at..next]) {
                    return Err(SetError::NoSet);
                }
                st = passed(st, &memory[at..next]);
                if !are_few(st) {
                    return Err(SetError::NoSet);
                }
                at = next;
            }
        }
    }
}
