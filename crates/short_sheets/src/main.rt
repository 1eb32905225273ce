// Prints every session of at most three messages from a fixed list of twelve: the places of its messages, then the sheet of its run.
#![tactic(auto)]

ghost use Rattle.std.specs.Prelude.{◌≡◌, suc, ◌-◌, ◌≤◌, ◌<◌, length, take, drop, OnOk};
ghost use Rattle.std.specs.Io.KnownBytes.{Appends};
ghost use Rattle.rules.specs.Calls.{run};
ghost use Rattle.records.specs.Seen.{seen, ◌plus◌};
ghost use Rattle.text.specs.Typing.{◌types◌};
ghost use Rattle.short_sessions.specs.Sessions.{Within, sessions};
ghost use Rattle.short_sessions.specs.Values.{places_of};
ghost use Rattle.short_sheets.specs.Short.{Stands, message_at, messages_of, places_line, session_text, texts_of};
ghost use Rattle.short_sheets.specs.Requirements.{MessagesRoom, SessionRoom};

use short_sessions::Session;
use std::io;
use std::io::Write;

// The messages of a session -------------------------------------------------------------------

// The message at a place of the list, which is a line here.
fn put_message(out: &mut [u8], at: usize, place: u8) -> usize
    requires { place < 12 }
    ensures { seen out.new result ≡ seen out.old at plus message_at place }
{
    let list = b"\x06\0\x05\0\0\x01\
        \x06\0\x05\0\x01\x01\
        \x12\0\x01\0\x01\0\0\0\0\x01\x82\0\0\0\x0f\0\0\0\
        \x12\0\x01\0\x02\0\0\0\x01\x01\x5a\0\0\0\x0c\0\0\0\
        \x15\0\x02\0\x03\0\0\0\0\0\x01\0\x01\xcd\0\0\0\x08\0\0\0\
        \x12\0\x01\0\x04\0\0\0\0\x01\x73\0\0\0\x05\0\0\0\
        \x08\0\x03\0\x03\0\0\0\
        \x04\0\x06\0\
        \x05\0\x0b\0\x01\
        \x0d\0\x04\0\0\0\0\0\0\x73\0\0\0\
        \x06\0\x05\0\0\0\
        \x06\0\x05\0\x01\0";
    let starts = [0, 6, 12, 30, 48, 69, 87, 95, 99, 104, 117, 123, 129];
    let i = usize::from(place);
    records::put(out, at, &list[starts[i]..starts[i + 1]])
}

// A session's messages at the start of a memory, and how many bytes they are. Each length has an arm, as a session is no array of its places.
fn put_messages(out: &mut [u8], s: Session) -> usize
    requires { MessagesRoom s out.old }
    ensures { Stands (messages_of (places_of s)) out.new result }
{
    match s {
        Session::Empty => 0,
        Session::One(a) => put_message(out, 0, a),
        Session::Two(a, b) => {
            let at = put_message(out, 0, a);
            put_message(out, at, b)
        }
        Session::Three(a, b, c) => {
            let mut at = put_message(out, 0, a);
            at = put_message(out, at, b);
            put_message(out, at, c)
        }
    }
}

// The text of a session -----------------------------------------------------------------------

// A place is printed from 1 on.
fn printed(place: u8) -> u32
    ensures { result ≡ suc place }
{
    u32::from(place) + 1
}

// The line of a session's places.
fn put_places(out: &mut [u8], s: Session) -> usize
    ensures { seen out.new result ≡ seen out.old 0 types places_line (places_of s) }
{
    match s {
        Session::Empty => records::put(out, 0, b"\n"),
        Session::One(a) => text::put_fields(out, 0, printed(a), &[]),
        Session::Two(a, b) => text::put_fields(out, 0, printed(a), &[printed(b)]),
        Session::Three(a, b, c) => text::put_fields(out, 0, printed(a), &[printed(b), printed(c)]),
    }
}

// The run of a session: its report in a memory that does not fill.
fn run_session(s: Session, report: &mut [u8])
    requires { Within 12 (places_of s) }
    ensures { report.new ≡ (run (length report.old) (messages_of (places_of s))).report }
{
    let mut messages = [0u8; 63];
    let n = put_messages(&mut messages, s);
    engine::run(&messages[..n], report);
}

// A session's text at the start of a memory, and how many bytes it is.
fn put_session(s: Session, report: &mut [u8], text: &mut [u8]) -> usize
    requires { SessionRoom s report.old text.old }
    ensures { Stands (session_text (places_of s)) text.new result }
{
    run_session(s, report);
    let at = put_places(text, s);
    text::put_sheet(text, at, report)
}

// Printing ------------------------------------------------------------------------------------

// Prints every session: each one's text, once, in order. Where the writer tells its bytes, these are what it took.
fn print_sessions<W: Write>(out: &mut W) -> io::Result<()>
    ensures { OnOk result (Appends (W.contents out.old) (W.contents out.new) (texts_of (sessions 12))) }
{
    let mut report = [0u8; 31299];
    let mut text = [0u8; 78256];
    let mut memory = [0u8; 4];
    let mut next = Some(short_sessions::empty());
    while let Some(s) = next {
        let written = put_session(s, &mut report, &mut text);
        out.write_all(&text[..written])?;
        next = short_sessions::advance(12, &mut memory);
    }
    Ok(())
}

// No clause says which bytes standard output takes, so none here does. A failed write is told on standard error, and an error there is let go.
fn main(rt: HostRuntime) {
    let mut out = rt.stdout();
    if let Err(error) = print_sessions(&mut out) {
        let _ = eprintln!(rt; "short: standard output: {error}");
    }
}
