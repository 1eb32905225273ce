// Records out: bytes and records written into a lent slice, and the sheet read back.
#![tactic(auto)]

ghost use Rattle.std.specs.Prelude.{◌≡◌, [], ◌∷◌, ◌++◌, ◌+◌, ◌-◌, ◌*◌, ◌≤◌, length, take, replicate};
ghost use Rattle.rules.specs.Bytes.{bytes, i32};
ghost use Rattle.rules.specs.Records.{answer, trade, pair, generated, removed, crossed, cancelled, looked};
ghost use Rattle.records.specs.Seen.{seen, pasted, word_bytes, ◌plus◌, ◌writes◌};
ghost use Rattle.records.specs.Next.{next_record};

use rules::Cause;

// Writing -------------------------------------------------------------------------------------

// The bytes of `src` at `at`, and the position after them. Where they do not fit nothing is written, and the position is past the end: an Option would
// not say so, and what is written after a write that did not fit is left out by that position alone (specs/Seen.antt).
pub fn put(out: &mut [u8], at: usize, src: &[u8]) -> usize
    ensures { seen out.new result ≡ seen out.old at plus src.now }
{
    let n = out.len();
    if n < at {
        return n + 1;
    }
    if n - at < src.len() {
        return n + 1;
    }
    let end = at + src.len();
    out[at..end].copy_from_slice(src);
    end
}

// The low bytes of a number, lowest first.
fn bytes2(x: u16) -> [u8; 2]
    ensures { result ≡ bytes 2 x }
{
    x.to_le_bytes()
}

// A number as four bytes, little-endian.
pub fn bytes4(x: u32) -> [u8; 4]
    ensures { result ≡ bytes 4 x }
{
    x.to_le_bytes()
}

// A number's four bytes in the place of those at `at`.
fn store4(out: &mut [u8], at: usize, x: u32)
    requires { at + 4 ≤ length out.old }
    ensures { out.new ≡ pasted out.old at (bytes 4 x) }
{
    out[at..at + 4].copy_from_slice(&bytes4(x));
}

// The bytes of each of `words`, four each, in the place of those from `at` on.
fn store_words(out: &mut [u8], at: usize, words: &[u32])
    requires { at + 4 * length words.now ≤ length out.old }
    ensures { out.new ≡ pasted out.old at (word_bytes words.now) }
{
    for i in 0..words.len() {
        store4(out, at + 4 * i, words[i]);
    }
}

// The bytes of `head` and then those of each of `words`, as one write.
pub fn put_words(out: &mut [u8], at: usize, head: &[u8], words: &[u32]) -> usize
    requires { (length head.now ≤ 16) × (length words.now ≤ 4) }
    ensures { seen out.new result ≡ seen out.old at plus (head.now ++ word_bytes words.now) }
{
    let n = out.len();
    if n < at {
        return n + 1;
    }
    if n - at < head.len() + 4 * words.len() {
        return n + 1;
    }
    let pos = put(out, at, head);
    store_words(out, pos, words);
    pos + 4 * words.len()
}

// The 32 bits of a net, in two's complement.
pub fn bits(x: i64) -> u32
    ensures { bytes 4 result ≡ i32 x }
{
    let wide = x.max(-4294967296).cast_unsigned();
    (wide % 4294967296) as u32
}

// 64: a message's number, its refusal or 0, the legging places filled after it and how many they are.
pub fn emit_answer(
    out: &mut [u8],
    at: usize,
    number: u32,
    refusal: u8,
    mask: u16,
    count: u8,
) -> usize
    ensures { seen out.new result ≡ seen out.old at writes (answer number refusal mask count ∷ []) }
{
    let n = bytes4(number);
    let m = bytes2(mask);
    let record = [
        12u8, 0, 64, 0, n[0], n[1], n[2], n[3], refusal, m[0], m[1], count,
    ];
    put(out, at, &record)
}

// The answer at `at` set anew, the bytes after its 12 as they were.
pub fn set_answer(out: &mut [u8], at: usize, number: u32, refusal: u8, mask: u16, count: u8)
    ensures { out.new ≡ (seen out.old at writes (answer number refusal mask count ∷ [])).memory }
{
    emit_answer(out, at, number, refusal, mask, count);
}

// 65: a trade, by the taker's side.
pub fn emit_trade(
    out: &mut [u8],
    at: usize,
    series: u8,
    side: u8,
    price: u32,
    quantity: u32,
    taker: u32,
    maker: u32,
) -> usize
    ensures { seen out.new result ≡ seen out.old at writes (trade series side price quantity taker maker ∷ []) }
{
    let head = [22u8, 0, 65, 0, series, side];
    let words = [price, quantity, taker, maker];
    put_words(out, at, &head, &words)
}

// 66: pairs of both legs traded, and their net.
pub fn emit_pair(out: &mut [u8], at: usize, id: u32, net: i64, quantity: u32) -> usize
    ensures { seen out.new result ≡ seen out.old at writes (pair id net quantity ∷ []) }
{
    let head = [16u8, 0, 66, 0];
    let words = [id, bits(net), quantity];
    put_words(out, at, &head, &words)
}

// 67: a legging order made, with its own price and the displayed one.
pub fn emit_generated(
    out: &mut [u8],
    at: usize,
    id: u32,
    series: u8,
    side: u8,
    price: u32,
    displayed: u32,
    quantity: u32,
) -> usize
    ensures { seen out.new result ≡ seen out.old at writes (generated id series side price displayed quantity ∷ []) }
{
    let i = bytes4(id);
    let head = [22u8, 0, 67, 0, i[0], i[1], i[2], i[3], series, side];
    let words = [price, displayed, quantity];
    put_words(out, at, &head, &words)
}

// 68: a legging order gone, and why.
pub fn emit_removed(out: &mut [u8], at: usize, id: u32, series: u8, side: u8, cause: Cause) -> usize
    ensures { seen out.new result ≡ seen out.old at writes (removed id series side cause ∷ []) }
{
    let i = bytes4(id);
    let why = arithmetic::cause_number(cause);
    let record = [11u8, 0, 68, 0, i[0], i[1], i[2], i[3], series, side, why];
    put(out, at, &record)
}

// 70: two complex orders crossed, at the taker's net.
pub fn emit_crossed(
    out: &mut [u8],
    at: usize,
    taker: u32,
    maker: u32,
    net: i64,
    quantity: u32,
) -> usize
    ensures { seen out.new result ≡ seen out.old at writes (crossed taker maker net quantity ∷ []) }
{
    let head = [20u8, 0, 70, 0];
    let words = [taker, maker, bits(net), quantity];
    put_words(out, at, &head, &words)
}

// 71: an order cancelled, and what was open of it.
pub fn emit_cancelled(out: &mut [u8], at: usize, id: u32, quantity: u32) -> usize
    ensures { seen out.new result ≡ seen out.old at writes (cancelled id quantity ∷ []) }
{
    let head = [12u8, 0, 71, 0];
    let words = [id, quantity];
    put_words(out, at, &head, &words)
}

// 72: how many orders a limited sweep looked at.
pub fn emit_looked(out: &mut [u8], at: usize, count: u8) -> usize
    ensures { seen out.new result ≡ seen out.old at writes (looked count ∷ []) }
{
    let record = [5u8, 0, 72, 0, count];
    put(out, at, &record)
}

// Zeros from `at` on.
pub fn zero_from(out: &mut [u8], at: usize)
    ensures { out.new ≡ take at out.old ++ replicate (length out.old - at) 0 }
{
    if at < out.len() {
        out[at..].fill(0);
    }
}

// The sheet read back -------------------------------------------------------------------------

// A record that stands in a report memory: its kind, and the position after it.
#[derive(Clone, Copy, PartialEq, Eq)]
pub struct Found {
    pub kind: u16,
    pub end: usize,
}

// The record at a position of a report memory; none at the end of the sheet.
pub fn next_record(memory: &[u8], at: usize) -> Option<Found>
    ensures { result ≡ next_record memory.now at }
{
    let n = memory.len();
    if n <= at {
        return None;
    }
    let size = wire::u16_at(memory, at);
    if size == 0 {
        return None;
    }
    let kind = wire::u16_at(memory, at + 2);
    let bytes = usize::from(size);
    let end = at + bytes.min(n - at);
    Some(Found { kind, end })
}
