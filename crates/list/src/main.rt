// Prints the listing of a text: reads it, asks `listing` for pieces and writes them out. All between reading and writing is proved there; no contract says
// what is read or written. A failed read or write is told on standard error, and nothing more is written.

#![tactic(auto)]

use listing::{EVENTS, Listing, READ, TOKENS, begin};
use std::env::FillError;
use std::io::Read;
use std::rt::{Env, Files};
use std::{fs, io};
use streams::{read_full, tell, write_out};

const HELP: [u8; 208] =
    *b"list [FILE]  prints the listing of the property section in FILE, or in standard input (also: -)
             a text that is refused prints one line: refused,NUMBER,PLACE
list --help  prints these three lines
";

// How many bytes of a listing are made at once.
const ROOM: usize = 65536;

// The system's numbers of two errors: a name that is too long, and bytes that are no text.
const ENAMETOOLONG: i32 = 36;

const EILSEQ: i32 = 84;

// Writes the next piece of a listing, and says whether there was one and it went out.
fn print_piece<R: Print + Eprint>(rt: &R, out: &[u8], count: usize) -> bool {
    match out.get(..count) {
        Some(piece) if !piece.is_empty() => write_out(rt, piece),
        _ => false,
    }
}

// A proved loop has to end: it has a number of turns, one that no run uses up.
fn print<R: Print + Eprint>(
    rt: &R,
    text: &[u8; READ],
    tokens: &[u32; TOKENS],
    events: &[u32; EVENTS],
    mut l: Listing,
) {
    let mut out = [0u8; ROOM];
    for _ in 0..u64::MAX {
        let count = l.next_piece(text, tokens, events, &mut out);
        if !print_piece(rt, &out, count) {
            break;
        }
    }
}

// The listing of what can be read from a stream, which has a name for messages.
fn list<R: Print + Eprint, F: Read>(rt: &R, from: &mut F, name: &str) {
    let mut text = [0u8; READ];
    let count = match read_full(from, &mut text) {
        Ok(count) => count,
        Err(cut) => return tell(rt, name, &Some(cut.why)),
    };
    let mut tokens = [0u32; TOKENS];
    let mut events = [0u32; EVENTS];
    let l = begin(&text, count, &mut tokens, &mut events);
    print(rt, &text, &tokens, &events, l);
}

fn list_file<R: Files + Print + Eprint>(rt: &R, path: &str) {
    match fs::open(rt, path) {
        Ok(mut file) => list(rt, &mut file, path),
        Err(why) => tell(rt, path, &Some(why)),
    }
}

fn list_input<R: Input + Print + Eprint>(rt: &R) {
    list(rt, &mut rt.reader(), "standard input");
}

fn tell_usage<R: Eprint>(rt: &R) {
    let _ = rt.eprintln("list: one FILE at most, and no option but --help");
}

// An argument that can't be taken: the system's number of the error says why.
fn refuse<R: Eprint>(rt: &R, error: i32) {
    tell(rt, "argument", &Some(io::Error::from_raw_os_error(error)));
}

// What one argument asks for. An option begins with `-`, so a file of such a name is given as `./-..`. A file has a name that is text.
fn answer<R: Files + Input + Print + Eprint>(rt: &R, arg: &[u8]) {
    match arg {
        b"-" => list_input(rt),
        b"--help" => {
            write_out(rt, &HELP);
        }
        [b'-', ..] => tell_usage(rt),
        _ => match str::from_utf8(arg) {
            Ok(path) => list_file(rt, path),
            Err(_) => refuse(rt, EILSEQ),
        },
    }
}

// Whether there is an argument of this number, however long.
fn is_given(rt: &impl Env, i: usize) -> bool {
    let mut byte = [0u8; 1];
    !matches!(rt.arg(i, &mut byte), Err(FillError::NotPresent))
}

fn main(rt: HostRuntime) {
    if !is_given(&rt, 1) {
        list_input(&rt);
        return;
    }
    if is_given(&rt, 2) {
        tell_usage(&rt);
        return;
    }
    let mut arg = [0u8; 4096];
    match rt.arg(1, &mut arg) {
        Ok(n) => answer(&rt, &arg[..n]),
        Err(_) => refuse(&rt, ENAMETOOLONG),
    }
}
