// The lines of the listing, written into lent bytes: an event's, the header, a refusal's.

#![tactic(auto)]

ghost use Rattle.std.specs.Prelude.{◌≤◌, ◌≡◌, [], ◌∷◌, ◌++◌, length};
ghost use Rattle.aadl.specs.Encoding.{fields, event_in};
ghost use Rattle.aadl.specs.Listing.{decimal, letter};
ghost use Rattle.writing.specs.Written.{Writes};
ghost use Rattle.listing_lines.specs.Lines.{line_room, line_of, refusal_line, first_line};

use aadl::Answer;
use codec::{class_in, kind_in, last_in};
use positions::Spot;
use writing::Writer;

// Class letter, kind and last of an event word.
#[derive(Clone, Copy)]
struct Fields {
    letter: u8,
    kind: u32,
    last: u32,
}

// The fields that an event word shows. The word may be any, so its class is matched as a number, as `event_by` does.
fn fields_in(word: u32) -> Fields
    ensures { ((result.letter ∷ []) ≡ letter (event_in word)) × (result.kind ≡ (fields (event_in word)).1) × (result.last ≡ (fields (event_in word)).2) }
{
    let kind = kind_in(word);
    let last = last_in(word);
    match class_in(word) {
        0 => Fields {
            letter: b'S',
            kind,
            last,
        },
        1 => Fields {
            letter: b'T',
            kind,
            last: 1,
        },
        2 => Fields {
            letter: b'F',
            kind: 0,
            last: 0,
        },
        _ => Fields {
            letter: b'E',
            kind: 0,
            last,
        },
    }
}

// Writes a number and the byte after it, a comma or LF.
fn put_field(w: &mut Writer, n: u64, after: u8)
    ensures { Writes w.old (decimal n ++ (after ∷ [])) w.new }
{
    w.put_decimal(n);
    w.put_byte(after);
}

// Writes the line of an event, by its number, its word and its spot.
pub fn put_line(w: &mut Writer, number: usize, word: u32, s: Spot)
    ensures line { Writes w.old (line_of number word s.line s.column) w.new }
    ensures fits { length (line_of number word s.line s.column) ≤ line_room }
{
    let f = fields_in(word);
    put_field(w, number as u64, b',');
    w.put_byte(f.letter);
    w.put_byte(b',');
    put_field(w, u64::from(f.kind), b',');
    put_field(w, u64::from(f.last), b',');
    put_field(w, u64::from(s.line), b',');
    put_field(w, u64::from(s.column), b'\n');
}

// Writes the one line of a refusal.
fn put_refusal(w: &mut Writer, number: u32, place: usize)
    ensures line { Writes w.old (refusal_line number place) w.new }
    ensures fits { length (refusal_line number place) ≤ line_room }
{
    w.put_text(b"refused,");
    put_field(w, u64::from(number), b',');
    put_field(w, place as u64, b'\n');
}

// Writes the first line: the header, or the one line of a refusal.
pub fn put_first(w: &mut Writer, a: Answer)
    ensures line { Writes w.old (first_line a) w.new }
    ensures fits { length (first_line a) ≤ line_room }
{
    if a.number == 0 {
        w.put_text(b"event,class,kind,last,line,column\n");
    } else {
        put_refusal(w, a.number, a.place);
    }
}
