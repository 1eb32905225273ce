// The sheet as text: a line for each record of a report memory, typed into a lent slice.
#![tactic(auto)]

ghost use Rattle.std.specs.Prelude.{◌≡◌, [], ◌∷◌, ◌+◌, ◌<◌};
ghost use Rattle.rules.specs.Bytes.{u8_at, u16_at, u32_at, as_signed};
ghost use Rattle.rules.specs.Records.{answer, trade, pair, generated, removed, crossed, cancelled, looked, cause_number, cause_of, record_of, records};
ghost use Rattle.records.specs.Seen.{seen};
ghost use Rattle.text.specs.Lines.{decimal, signed_text, word, words, signed_word, line, line_of, text_of};
ghost use Rattle.text.specs.Typing.{◌types◌};

// Numbers -------------------------------------------------------------------------------------

// A byte at `at`, and the position after it. Where it does not fit nothing is written, and the position is past the end.
fn put_byte(out: &mut [u8], at: usize, byte: u8) -> usize
    ensures { seen out.new result ≡ seen out.old at types (byte ∷ []) }
{
    let n = out.len();
    if n <= at {
        return n + 1;
    }
    out[at] = byte;
    at + 1
}

// A digit's ASCII code.
fn digit(n: u32) -> u8
    requires { n < 10 }
    ensures { result ≡ 48 + n }
{
    b'0' + n as u8
}

// A number in decimal.
// The library prints a number whole. Here a number that does not fit is cut where the memory ends, so each digit is put by itself.
fn put_number(out: &mut [u8], at: usize, n: u32) -> usize
    ensures { seen out.new result ≡ seen out.old at types decimal n }
{
    if n < 10 {
        return put_byte(out, at, digit(n));
    }
    let pos = put_number(out, at, n / 10);
    put_byte(out, pos, digit(n % 10))
}

// The signed number whose 32 bits, in two's complement, are `bits`: a negative one has a minus sign.
fn put_signed(out: &mut [u8], at: usize, bits: u32) -> usize
    ensures { seen out.new result ≡ seen out.old at types signed_text (as_signed bits) }
{
    if bits < 2147483648 {
        return put_number(out, at, bits);
    }
    let pos = put_byte(out, at, b'-');
    put_number(out, pos, 4294967295 - bits + 1)
}

// A field: a blank, and a number.
fn put_word(out: &mut [u8], at: usize, n: u32) -> usize
    ensures { seen out.new result ≡ seen out.old at types word n }
{
    let pos = put_byte(out, at, b' ');
    put_number(out, pos, n)
}

// A space, and a signed number in decimal.
fn put_signed_word(out: &mut [u8], at: usize, bits: u32) -> usize
    ensures { seen out.new result ≡ seen out.old at types signed_word (as_signed bits) }
{
    let pos = put_byte(out, at, b' ');
    put_signed(out, pos, bits)
}

// Fields, one after another.
fn put_words(out: &mut [u8], at: usize, fields: &[u32]) -> usize
    ensures { seen out.new result ≡ seen out.old at types words fields.now }
{
    let mut pos = at;
    for x in fields {
        pos = put_word(out, pos, *x);
    }
    pos
}

// A record's line -----------------------------------------------------------------------------

// A line of a record that has no negative number.
pub fn put_fields(out: &mut [u8], at: usize, kind: u32, fields: &[u32]) -> usize
    ensures { seen out.new result ≡ seen out.old at types line kind fields.now }
{
    let mut pos = put_number(out, at, kind);
    pos = put_words(out, pos, fields);
    put_byte(out, pos, b'\n')
}

// The byte at a position as a number of 32 bits.
fn byte_at(s: &[u8], at: usize) -> u32
    ensures { result ≡ u8_at s.now at }
{
    u32::from(wire::u8_at(s, at))
}

// The number of 16 bits at a position as one of 32.
fn half_at(s: &[u8], at: usize) -> u32
    ensures { result ≡ u16_at s.now at }
{
    u32::from(wire::u16_at(s, at))
}

// 64: message number, refusal or 0, place mask, count.
fn put_answer(out: &mut [u8], at: usize, s: &[u8]) -> usize
    ensures { seen out.new result ≡ seen out.old at types line_of (answer (u32_at s.now 4) (u8_at s.now 8) (u16_at s.now 9) (u8_at s.now 11)) }
{
    let fields = [
        wire::u32_at(s, 4),
        byte_at(s, 8),
        half_at(s, 9),
        byte_at(s, 11),
    ];
    put_fields(out, at, 64, &fields)
}

// 65: series, taker's side, price, quantity, taker id, maker id.
fn put_trade(out: &mut [u8], at: usize, s: &[u8]) -> usize
    ensures { seen out.new result ≡ seen out.old at types line_of (trade (u8_at s.now 4) (u8_at s.now 5) (u32_at s.now 6) (u32_at s.now 10) (u32_at s.now 14) (u32_at s.now 18)) }
{
    let fields = [
        byte_at(s, 4),
        byte_at(s, 5),
        wire::u32_at(s, 6),
        wire::u32_at(s, 10),
        wire::u32_at(s, 14),
        wire::u32_at(s, 18),
    ];
    put_fields(out, at, 65, &fields)
}

// 66: complex id, net, quantity.
fn put_pair(out: &mut [u8], at: usize, s: &[u8]) -> usize
    ensures { seen out.new result ≡ seen out.old at types line_of (pair (u32_at s.now 4) (as_signed (u32_at s.now 8)) (u32_at s.now 12)) }
{
    let mut pos = put_number(out, at, 66);
    pos = put_word(out, pos, wire::u32_at(s, 4));
    pos = put_signed_word(out, pos, wire::u32_at(s, 8));
    pos = put_word(out, pos, wire::u32_at(s, 12));
    put_byte(out, pos, b'\n')
}

// 67: complex id, series, side, price, displayed, quantity.
fn put_generated(out: &mut [u8], at: usize, s: &[u8]) -> usize
    ensures { seen out.new result ≡ seen out.old at types line_of (generated (u32_at s.now 4) (u8_at s.now 8) (u8_at s.now 9) (u32_at s.now 10) (u32_at s.now 14) (u32_at s.now 18)) }
{
    let fields = [
        wire::u32_at(s, 4),
        byte_at(s, 8),
        byte_at(s, 9),
        wire::u32_at(s, 10),
        wire::u32_at(s, 14),
        wire::u32_at(s, 18),
    ];
    put_fields(out, at, 67, &fields)
}

// The cause's number, which a record that was written has as it is; a byte that is no cause reads as 10.
// To make a `Cause` of the byte would take a `match` of nine arms, and its number another.
fn cause_at(s: &[u8], at: usize) -> u32
    ensures { result ≡ cause_number (cause_of (u8_at s.now at)) }
{
    let n = byte_at(s, at);
    if (1..=8).contains(&n) { n } else { 10 }
}

// 68: complex id, series, side, cause.
fn put_removed(out: &mut [u8], at: usize, s: &[u8]) -> usize
    ensures { seen out.new result ≡ seen out.old at types line_of (removed (u32_at s.now 4) (u8_at s.now 8) (u8_at s.now 9) (cause_of (u8_at s.now 10))) }
{
    let fields = [
        wire::u32_at(s, 4),
        byte_at(s, 8),
        byte_at(s, 9),
        cause_at(s, 10),
    ];
    put_fields(out, at, 68, &fields)
}

// 70: taker id, maker id, taker's net, quantity.
fn put_crossed(out: &mut [u8], at: usize, s: &[u8]) -> usize
    ensures { seen out.new result ≡ seen out.old at types line_of (crossed (u32_at s.now 4) (u32_at s.now 8) (as_signed (u32_at s.now 12)) (u32_at s.now 16)) }
{
    let mut pos = put_number(out, at, 70);
    pos = put_word(out, pos, wire::u32_at(s, 4));
    pos = put_word(out, pos, wire::u32_at(s, 8));
    pos = put_signed_word(out, pos, wire::u32_at(s, 12));
    pos = put_word(out, pos, wire::u32_at(s, 16));
    put_byte(out, pos, b'\n')
}

// 71: id, quantity.
fn put_cancelled(out: &mut [u8], at: usize, s: &[u8]) -> usize
    ensures { seen out.new result ≡ seen out.old at types line_of (cancelled (u32_at s.now 4) (u32_at s.now 8)) }
{
    let fields = [wire::u32_at(s, 4), wire::u32_at(s, 8)];
    put_fields(out, at, 71, &fields)
}

// 72: orders looked at.
fn put_looked(out: &mut [u8], at: usize, s: &[u8]) -> usize
    ensures { seen out.new result ≡ seen out.old at types line_of (looked (u8_at s.now 4)) }
{
    let fields = [byte_at(s, 4)];
    put_fields(out, at, 72, &fields)
}

// The line of the record at the front of `s`, by its kind.
pub fn put_line(out: &mut [u8], at: usize, s: &[u8]) -> usize
    ensures { seen out.new result ≡ seen out.old at types line_of (record_of s.now) }
{
    match wire::u16_at(s, 2) {
        64 => put_answer(out, at, s),
        65 => put_trade(out, at, s),
        66 => put_pair(out, at, s),
        67 => put_generated(out, at, s),
        68 => put_removed(out, at, s),
        70 => put_crossed(out, at, s),
        71 => put_cancelled(out, at, s),
        _ => put_looked(out, at, s),
    }
}

// The lines of all records of a report memory, one after another.
pub fn put_sheet(out: &mut [u8], at: usize, report: &[u8]) -> usize
    ensures { seen out.new result ≡ seen out.old at types text_of (records report.now) }
{
    let mut from = 0;
    let mut pos = at;
    while let Some(found) = records::next_record(report, from) {
        pos = put_line(out, pos, &report[from..]);
        from = found.end;
    }
    pos
}
