// Replays calls of the library: reads records from standard input and writes what each call answers and leaves in the lent
// words, for tools/compare to hold against the Rust. tools/README.md says what a record is and what is written for one. Beside
// src/ stand a sample of records, `stdin`, and what the oracle gives for them, `stdout`; tools/compare/sample writes both. A failed read or write is told on
// standard error, and nothing more is written. No contract says what is read or written.

#![tactic(auto)]

ghost use Rattle.std.specs.Prelude.{◌≤◌, ◌≡◌, false, length, replicate};
ghost use Rattle.aadl.specs.Words.{bytes};
ghost use Rattle.writing.specs.Written.{Writes};
ghost use Rattle.replay.specs.Calls.{MakesCall, called, tree_called, parts_called, value_called, made_of, StandsWhole};
ghost use Rattle.replay.specs.Heads.{number_at, request_of, head_from, extended, record_head, lent_events, lent_records};

use aadl::Answer;
use replay_lines::{fill, put_parts, put_record, put_tree, put_valued};
use std::io;
use std::io::Read;
use streams::{read_full, tell, write_out};
use writing::Writer;

// How many bytes and token words the longest record has; how many event words, two for an event; and how many record words, four for a record.
const MOST: usize = 40000;

const EVENTS: usize = 80000;

const RECORDS: usize = 160000;

// How many bytes wait to be written at the most, and with how many left they are written out: 11 for each word, and some for names and numbers. A record has
// 40,000 token words at the most, 65,536 event words, two for each of 32,768 events, and 65,536 record words, since each node has two events. Nothing rests on
// that: lines that had no room would be a bad record (`answered`).
const OUT: usize = 1984832;

const LINES: usize = 1882192;

// In a record, in the place of a number: a record of the extended form, the largest settings, no event words.
const NONE: u32 = 4294967295;

// The numbers of the calls.
const PLAIN: u32 = 0;

const TREE: u32 = 1;

const PARTS: u32 = 5;

const VALUE: u32 = 6;

// The call of a record: the section call or the tokens-only call; the tree call, with the lent record words; the tokens-only call with the parts of the
// token of a number; the value call, for the association of a number.
#[derive(Clone, Copy)]
enum Request {
    Plain,
    Tree(usize),
    Parts(usize),
    Value(usize),
}

// What stands before a record's text: the call, the text's bytes, and the lent words. Where no event words are lent, a plain call is the tokens-only one.
#[derive(Clone, Copy)]
struct Head {
    call: Request,
    text: usize,
    tokens: usize,
    events: Option<usize>,
}

// What is lent to a call.
#[derive(Drop)]
struct Lent<'a> {
    text: &'a mut [u8],
    tokens: &'a mut [u32],
    events: &'a mut [u32],
    records: &'a mut [u32],
}

// Four bytes from a place on as a number, the lowest first.
fn number_at(b: &[u8; 16], i: usize) -> u32
    requires { i ≤ 12 }
    ensures { result ≡ number_at b.now i }
{
    u32::from_le_bytes([b[i], b[i + 1], b[i + 2], b[i + 3]])
}

fn answer(src: &[u8], tokens: &mut [u32], events: &mut [u32], only: bool) -> Answer
    ensures { MakesCall only src tokens events result }
{
    if only {
        return lexer::tokenize(src, tokens);
    }
    section::property_section(src, tokens, events)
}

// Makes a record's call on words that are filled anew, and puts its lines. The three below are like it, for calls with other words, other answers and
// other lines: in one generic function each of these would be a parameter.
fn call(src: &[u8], tokens: &mut [u32], events: &mut [u32], only: bool, w: &mut Writer)
    ensures { Writes w.old (called only src.now (length tokens.old) (length events.old)) w.new }
{
    fill(tokens);
    fill(events);
    let a = answer(src, tokens, events, only);
    put_record(w, a, tokens, events);
}

// Makes a record's tree call on words that are filled anew, and puts its lines.
fn call_tree(
    src: &[u8],
    tokens: &mut [u32],
    events: &mut [u32],
    records: &mut [u32],
    w: &mut Writer,
)
    ensures { Writes w.old (tree_called src.now (length tokens.old) (length events.old) (length records.old)) w.new }
{
    fill(tokens);
    fill(events);
    fill(records);
    let a = tree::property_tree(src, tokens, events, records);
    put_tree(w, a, tokens, events, records);
}

// Makes a record's tokens-only call on words that are filled anew, and puts the parts of one of its tokens.
fn call_parts(src: &[u8], tokens: &mut [u32], number: usize, w: &mut Writer)
    ensures { Writes w.old (parts_called src.now (length tokens.old) number) w.new }
{
    fill(tokens);
    lexer::tokenize(src, tokens);
    put_parts(w, lexer::number_parts(src, tokens, number));
}

// Makes a record's value call on words that are filled anew, and puts its lines.
fn call_value(src: &[u8], tokens: &mut [u32], events: &mut [u32], number: usize, w: &mut Writer)
    ensures { Writes w.old (value_called src.now (length tokens.old) (length events.old) number) w.new }
{
    fill(tokens);
    fill(events);
    let a = value::association_value(src, tokens, events, number);
    put_valued(w, a, tokens, events);
}

// Makes the call that a record asks for.
fn make(h: Head, lent: Lent, w: &mut Writer)
    ensures { Writes w.old (made_of h lent.entry) w.new }
{
    let Lent {
        text,
        tokens,
        events,
        records,
    } = lent;
    match h.call {
        Request::Plain => call(text, tokens, events, h.events.is_none(), w),
        Request::Tree(_) => call_tree(text, tokens, events, records, w),
        Request::Parts(number) => call_parts(text, tokens, number, w),
        Request::Value(number) => call_value(text, tokens, events, number, w),
    }
}

// The call with a number, and with a number of its own.
fn request_of(number: u32, own: usize) -> Option<Request>
    ensures { result ≡ request_of number own }
{
    match number {
        PLAIN if own == 0 => Some(Request::Plain),
        TREE => Some(Request::Tree(own)),
        PARTS => Some(Request::Parts(own)),
        VALUE => Some(Request::Value(own)),
        _ => None,
    }
}

// The text and the lent words, which stand in a row in both forms of a record, with a call.
fn head_from(b: &[u8; 16], call: Request) -> Head
    ensures { result ≡ head_from b.now call }
{
    let events = number_at(b, 8);
    Head {
        call,
        text: number_at(b, 0) as usize,
        tokens: number_at(b, 4) as usize,
        events: if events == NONE {
            None
        } else {
            Some(events as usize)
        },
    }
}

fn is_extended(front: &[u8; 16]) -> bool
    ensures { result ≡ extended front.now }
{
    number_at(front, 0) == NONE
}

// A record's head, if it is one that there is.
fn head_of(front: &[u8; 16], back: &[u8; 16]) -> Option<Head>
    ensures { result ≡ record_head front.now back.now }
{
    if !is_extended(front) {
        return Some(head_from(front, Request::Plain));
    }
    if number_at(front, 8) != NONE {
        return None;
    }
    let call = request_of(number_at(front, 4), number_at(back, 12) as usize)?;
    Some(head_from(back, call))
}

// The line for a record that ends early, asks for too much or for a call that there is none of. Nothing more is read after it.
fn bad(w: &mut Writer) -> bool
    ensures line { Writes w.old (bytes "bad record\n") w.new }
    ensures last { result ≡ false }
{
    w.put_text(b"bad record\n");
    false
}

// A read failed: that is told, and nothing more is written.
fn failed<R: Eprint>(rt: &R, why: io::Error, w: &mut Writer) -> bool
    ensures nothing { w.new.at ≡ 0 }
    ensures last { result ≡ false }
{
    tell(rt, "standard input", &Some(why));
    w.at = 0;
    false
}

// How many event words a record asks for.
fn lent_events(h: Head) -> usize
    ensures { result ≡ lent_events h }
{
    h.events.unwrap_or(0)
}

// How many record words a record asks for.
fn lent_records(h: Head) -> usize
    ensures { result ≡ lent_records h }
{
    match h.call {
        Request::Tree(records) => records,
        _ => 0,
    }
}

// Makes the call that a record asks for. Another record may follow only where its lines stand whole.
fn answered(h: Head, lent: Lent, w: &mut Writer) -> bool
    ensures { StandsWhole (made_of h lent.entry) w.old result w.new }
{
    let at = w.at;
    make(h, lent, w);
    if w.room() == 0 {
        w.at = at;
        return bad(w);
    }
    true
}

// Lends what a record asks for, if there is as much. The slices come one by one: parts of what stands in a struct behind `&mut` get no generated proof.
fn lend(
    h: Head,
    text: &mut [u8],
    tokens: &mut [u32],
    events: &mut [u32],
    records: &mut [u32],
    w: &mut Writer,
) -> bool {
    let n = h.text;
    let t = h.tokens;
    let e = lent_events(h);
    let m = lent_records(h);
    if text.len() < n || tokens.len() < t || events.len() < e || records.len() < m {
        return bad(w);
    }
    let lent = Lent {
        text: &mut text[..n],
        tokens: &mut tokens[..t],
        events: &mut events[..e],
        records: &mut records[..m],
    };
    answered(h, lent, w)
}

// Reads a record's text and answers the record.
fn answer_record<R: Eprint, F: Read>(
    rt: &R,
    from: &mut F,
    all: &mut Lent,
    h: Head,
    w: &mut Writer,
) -> bool {
    let n = h.text;
    if all.text.len() < n {
        return bad(w);
    }
    match read_full(from, &mut all.text[..n]) {
        Ok(count) if count < n => bad(w),
        Ok(_) => lend(h, all.text, all.tokens, all.events, all.records, w),
        Err(cut) => failed(rt, cut.why, w),
    }
}

// Reads a record and answers it, and says whether another may follow. Of the numbers before the text, one of the extended form has sixteen bytes behind
// the first twelve.
fn turn<R: Eprint, F: Read>(rt: &R, from: &mut F, all: &mut Lent, w: &mut Writer) -> bool {
    let mut front = [0u8; 16];
    let mut back = [0u8; 16];
    match read_full(from, &mut front[..12]) {
        Ok(0) => return false,
        Ok(count) if count < 12 => return bad(w),
        Ok(_) => {}
        Err(cut) => return failed(rt, cut.why, w),
    }
    if is_extended(&front) {
        match read_full(from, &mut back) {
            Ok(count) if count < 16 => return bad(w),
            Ok(_) => {}
            Err(cut) => return failed(rt, cut.why, w),
        }
    }
    match head_of(&front, &back) {
        Some(h) => answer_record(rt, from, all, h, w),
        None => bad(w),
    }
}

// Writes out the bytes that wait, and says whether that went well.
fn flush<R: Print + Eprint>(rt: &R, w: &Writer) -> bool {
    match w.out.get(..w.at) {
        Some(bytes) => write_out(rt, bytes),
        None => false,
    }
}

// Sees to room for a record's lines.
fn make_room<R: Print + Eprint>(rt: &R, w: &mut Writer) -> bool {
    if w.at < OUT - LINES {
        return true;
    }
    let on = flush(rt, w);
    w.at = 0;
    on
}

// A proved loop has to end, and nothing says that the input does. So it has a number of turns, one that no run uses up.
fn turns<R: Print + Eprint, F: Read>(rt: &R, from: &mut F, all: &mut Lent, w: &mut Writer) {
    for _ in 0..u64::MAX {
        let on = turn(rt, from, all, w);
        if !make_room(rt, w) || !on {
            break;
        }
    }
}

// Zeros, for the bytes that wait. The `ensures` gives the length too, which lending them asks for.
fn waiting() -> [u8; OUT]
    ensures { (result ≡ replicate 1984832 0) × (1984832 ≡ length result) }
{
    [0; OUT]
}

fn main(rt: HostRuntime) {
    let mut text = [0u8; MOST];
    let mut tokens = [0u32; MOST];
    let mut events = [0u32; EVENTS];
    let mut records = [0u32; RECORDS];
    let mut out = waiting();
    let mut all = Lent {
        text: &mut text,
        tokens: &mut tokens,
        events: &mut events,
        records: &mut records,
    };
    let mut w = Writer::new(&mut out, 0);
    turns(&rt, &mut rt.stdin(), &mut all, &mut w);
    flush(&rt, &w);
}
