// Messages taken one by one from the caller's memory, uncopied. A reader holds the memory and a position in it; the functions over it are thin, and the work
// is done by `head_at`, on a plain slice. Callers use `message_head`, whose parameters are plain.
#![tactic(auto)]

ghost use Rattle.std.specs.Prelude.{◌≡◌};
ghost use Rattle.reader.specs.Head.{head_at, head_number, head_length};

// The messages, and the position of the next one.
#[derive(Clone, Copy)]
pub struct Reader<'a> {
    pub messages: &'a [u8],
    pub at: usize,
}

// What stands at a position: nothing, a torn message, or a message of this length.
// The end is no error and has no length, so a `Result` of a length would hold an `Option`.
#[derive(Clone, Copy)]
pub enum Head {
    End,
    Torn,
    Message(u16),
}

// What stands at a position of a memory.
fn head_at(messages: &[u8], at: usize) -> Head
    ensures { result ≡ head_at messages.now at }
{
    if messages.len() <= at {
        return Head::End;
    }
    let left = messages.len() - at;
    if left < 4 {
        return Head::Torn;
    }
    let length = wire::u16_at(messages, at);
    if length < 4 {
        return Head::Torn;
    }
    if left < length as usize {
        return Head::Torn;
    }
    Head::Message(length)
}

// A reader of a memory's messages, at a position.
pub fn reader_at<'a>(messages: &'a [u8], at: usize) -> Reader<'a>
    ensures { (result.messages ≡ messages.entry) × (result.at ≡ at) }
{
    Reader { messages, at }
}

// What stands where the reader is.
pub fn next<'a>(r: Reader<'a>) -> Head
    ensures { result ≡ head_at r.entry.messages.now r.entry.at }
{
    head_at(r.messages, r.at)
}

// What stands at a position of the messages.
pub fn message_head(messages: &[u8], at: usize) -> Head
    ensures { result ≡ head_at messages.now at }
{
    next(reader_at(messages, at))
}

// The number that ends a run there; 0 too where it goes on. It is the number that a run returns, which is 0 at the end of its messages.
pub fn head_number(head: Head) -> u8
    ensures { result ≡ head_number head }
{
    match head {
        Head::End => 0,
        Head::Torn => 1,
        Head::Message(_) => 0,
    }
}

// How many bytes further the run goes on.
pub fn head_length(head: Head) -> u16
    ensures { result ≡ head_length head }
{
    match head {
        Head::End => 0,
        Head::Torn => 0,
        Head::Message(length) => length,
    }
}
