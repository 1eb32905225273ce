// The printing program: reads messages on standard input, its first 65,536 bytes at most, and prints the sheet of a run over them, a line per record.
#![tactic(auto)]

ghost use Rattle.std.specs.Prelude.{◌≡◌, ◌≤◌, [], length, IfOk, OnOk};
ghost use Rattle.std.specs.Io.KnownBytes.{Appends};
ghost use Rattle.sheet.specs.Sheet.{Prints, message_end, most_input, sheet_text, started};
ghost use Rattle.sheet.specs.Streams.{PrintsInput, ReadFrom, name_line};
ghost use Rattle.sheet.specs.Requirements.{LineRoom};

use rules::Venue;
use std::env::FillError;
use std::io::{Read, Write};
use std::rt::{Env, Files};
use std::{fs, io};

// How far the printing has come: how the last message's call went, the messages done and the bytes that they took, the bytes of the last
// message's text, and the venue after it.
#[derive(Clone, Copy)]
struct Progress {
    number: u8,
    done: u32,
    at: usize,
    written: usize,
    venue: Venue,
}

// Where the program stands before the first message.
fn start() -> Progress
    ensures { result ≡ started }
{
    let venue = arithmetic::fresh();
    Progress {
        number: 0,
        done: 0,
        at: 0,
        written: 0,
        venue,
    }
}

// How many bytes the message at the front of `rest` takes, whose call answered `number`: a torn message ends the list.
#[tactic(auto, unfolding(crate::specs::Sheet::message_end, rules::specs::Bytes::length_field))]
fn message_end(rest: &[u8], number: u8) -> usize
    ensures { result ≡ message_end number rest.now }
{
    if number == 1 {
        return rest.len();
    }
    usize::from(wire::u16_at(rest, 0))
}

// One message more: its lines at the start of `text`.
fn advance(p: Progress, messages: &[u8], report: &mut [u8], text: &mut [u8]) -> Progress
    requires { LineRoom messages.now report.old text.old p }
    ensures { Prints messages.now p text.new result }
{
    let at = p.at;
    let venue = p.venue;
    let rest = &messages[at..];
    let r = engine::one_message(venue, p.done, rest, report);
    let written = text::put_sheet(text, 0, report);
    let number = r.number;
    let after = r.venue;
    Progress {
        number,
        done: p.done + r.done,
        at: at + message_end(rest, number),
        written,
        venue: after,
    }
}

// Reading and printing ------------------------------------------------------------------------

// A clause names bytes only where a reader or a writer tells them, as one over memory does. Of the system's files and streams nothing is known.

// Why the printing stopped: the input or standard output failed, or the call of the message after `done` others answered `number`.
#[derive(Drop)]
enum Stopped {
    Input(io::Error),
    Output(io::Error),
    Call { done: u32, number: u8 },
}

// A line on standard error: why the printing of an input stopped. An error of that stream is let go.
fn tell(rt: &impl Eprint, name: &str, stopped: Stopped) {
    let _ = match stopped {
        Stopped::Input(error) => eprintln!(rt; "{name}: {error}"),
        Stopped::Output(error) => eprintln!(rt; "sheet: standard output: {error}"),
        Stopped::Call { done, number } => eprintln!(rt;
            "sheet: after message {done} a call answered {number}: the sheet ends there"
        ),
    };
}

// Prints the sheet of a message list.
fn print_list<W: Write>(out: &mut W, messages: &[u8]) -> Result<(), Stopped>
    requires { length messages.now ≤ most_input }
    ensures { OnOk result (Appends (W.contents out.old) (W.contents out.new) (sheet_text messages.now)) }
{
    let mut report = [0u8; 10433];
    let mut text = [0u8; 26083];
    let mut p = start();
    // The position moves on by each message's own length.
    while p.at < messages.len() {
        let done = p.done;
        p = advance(p, messages, &mut report, &mut text);
        if p.done == done {
            let number = p.number;
            return Err(Stopped::Call { done, number });
        }
        let written = p.written;
        out.write_all(&text[..written]).map_err(Stopped::Output)?;
    }
    Ok(())
}

// Reads until `buf` is full or the input ends, and answers how many bytes that were.
fn read_input<R: Read>(reader: &mut R, buf: &mut [u8]) -> io::Result<usize>
    ensures within { IfOk result (λ n. n ≤ length buf.new) }
    ensures bytes { IfOk result (λ n. ReadFrom (R.remaining reader.old) (R.remaining reader.new) buf.new n) }
{
    let mut done = 0;
    // Each read tells how many bytes it took.
    while done < buf.len() {
        let more = reader.read(&mut buf[done..])?;
        if more == 0 {
            break;
        }
        done += more;
    }
    Ok(done)
}

// Prints the sheet of an input.
fn print_input<R: Read, W: Write>(reader: &mut R, out: &mut W) -> Result<(), Stopped>
    ensures { OnOk result (PrintsInput [] (R.remaining reader.old) (W.contents out.old) (W.contents out.new)) }
{
    let mut input = [0u8; 65536];
    let n = read_input(reader, &mut input).map_err(Stopped::Input)?;
    print_list(out, &input[..n])
}

// A line that names a file.
fn print_name<W: Write>(out: &mut W, name: &str) -> io::Result<()>
    ensures { OnOk result (Appends (W.contents out.old) (W.contents out.new) (name_line name.now)) }
{
    writeln!(out, "# {name}")
}

// That line, and the file's sheet.
fn print_named<R: Read, W: Write>(reader: &mut R, out: &mut W, name: &str) -> Result<(), Stopped>
    ensures { OnOk result (PrintsInput (name_line name.now) (R.remaining reader.old) (W.contents out.old) (W.contents out.new)) }
{
    print_name(out, name).map_err(Stopped::Output)?;
    print_input(reader, out)
}

// The same of the file that a name reaches.
fn print_path<W: Write>(rt: &impl Files, out: &mut W, name: &str) -> Result<(), Stopped> {
    let mut file = fs::open(rt, name).map_err(Stopped::Input)?;
    print_named(&mut file, out, name)
}

// A line on standard error: why an argument names no file.
fn refuse(rt: &impl Eprint, why: &str) {
    let _ = eprintln!(rt; "sheet: argument: {why}");
}

// The same of the file that an argument names, and whether it was printed. A line on standard error tells why it was not.
fn print_file<W: Write>(rt: &(impl Files + Env + Eprint), out: &mut W, i: usize) -> bool {
    let mut memory = [0u8; 4096];
    let Ok(n) = rt.arg(i, &mut memory) else {
        refuse(rt, "File name too long");
        return false;
    };
    let Ok(name) = str::from_utf8(&memory[..n]) else {
        refuse(rt, "not UTF-8");
        return false;
    };
    if let Err(stopped) = print_path(rt, out, name) {
        tell(rt, name, stopped);
        return false;
    }
    true
}

// Whether the program was started with an argument at a place, its own name being at 0.
fn has_argument(rt: &impl Env, i: usize) -> bool {
    !matches!(rt.arg(i, &mut []), Err(FillError::NotPresent))
}

// With no argument, the sheet of standard input; otherwise that of each file named, until one fails.
fn main(rt: HostRuntime) {
    let mut out = rt.stdout();
    if !has_argument(&rt, 1) {
        let mut input = rt.stdin();
        if let Err(stopped) = print_input(&mut input, &mut out) {
            tell(&rt, "sheet: standard input", stopped);
        }
        return;
    }
    for i in 1..usize::MAX {
        if !has_argument(&rt, i) {
            return;
        }
        if !print_file(&rt, &mut out, i) {
            return;
        }
    }
}
