// Bytes: their classes by one table, runs of them, and well-formed UTF-8 sequences: what the scanners test and skip.

#![tactic(auto)]

ghost use Rattle.std.specs.Prelude.{◌≡◌, ◌&&◌, leb, take_while, zip, map, not, [], ◌∷◌, ◌≤◌, ◌<◌, max, length, drop};
ghost use Rattle.std.specs.List.{list_all};
ghost use Rattle.predictive.specs.Grammar.{has};
ghost use Rattle.aadl.specs.Bytes.{peek as byte_at, run_end};
ghost use Rattle.aadl.specs.Utf8.{◌to◌, fits, sequence};
ghost use Rattle.classes.specs.Classes.{lead_of, member};
ghost use Rattle.classes.specs.Search.{any, sought, unsought, other_than, chunks_end};

// The classes, one bit each: those of aadl's Bytes by their names there (WORD: `is_ident_continue`), and bytes that stand second in a
// mark or in `--`.
pub const SPACES: u8 = 1;

pub const DIGITS: u8 = 2;

pub const WORD: u8 = 4;

pub const GROUPED: u8 = 8;

pub const BASED: u8 = 16;

pub const HEX_DIGITS: u8 = 32;

pub const EXPONENTS: u8 = 64;

pub const SECOND: u8 = 128;

// The classes of each byte.
static CLASSES: [u8; 256] = *b"\x00\x00\x00\x00\x00\x00\x00\x00\x00\x01\x01\x00\x00\x01\x00\x00\
    \x00\x00\x00\x00\x00\x00\x00\x00\x00\x00\x00\x00\x00\x00\x00\x00\
    \x01\x00\x00\x00\x00\x00\x00\x00\x00\x00\x80\x00\x00\x80\x90\x00\
    \x3e\x3e\x3e\x3e\x3e\x3e\x3e\x3e\x3e\x3e\x80\x00\x00\x80\x80\x00\
    \x00\x34\x34\x34\x34\x74\x34\x04\x04\x04\x04\x04\x04\x04\x04\x04\
    \x04\x04\x04\x04\x04\x04\x04\x04\x04\x04\x04\x80\x00\x00\x00\x1c\
    \x00\x34\x34\x34\x34\x74\x34\x04\x04\x04\x04\x04\x04\x04\x04\x04\
    \x04\x04\x04\x04\x04\x04\x04\x04\x04\x04\x04\x00\x00\x00\x00\x00\
    \x00\x00\x00\x00\x00\x00\x00\x00\x00\x00\x00\x00\x00\x00\x00\x00\
    \x00\x00\x00\x00\x00\x00\x00\x00\x00\x00\x00\x00\x00\x00\x00\x00\
    \x00\x00\x00\x00\x00\x00\x00\x00\x00\x00\x00\x00\x00\x00\x00\x00\
    \x00\x00\x00\x00\x00\x00\x00\x00\x00\x00\x00\x00\x00\x00\x00\x00\
    \x00\x00\x00\x00\x00\x00\x00\x00\x00\x00\x00\x00\x00\x00\x00\x00\
    \x00\x00\x00\x00\x00\x00\x00\x00\x00\x00\x00\x00\x00\x00\x00\x00\
    \x00\x00\x00\x00\x00\x00\x00\x00\x00\x00\x00\x00\x00\x00\x00\x00\
    \x00\x00\x00\x00\x00\x00\x00\x00\x00\x00\x00\x00\x00\x00\x00\x00";

// What is added to the kind of a mark that other marks begin with.
pub const BEGINS_OTHERS: u32 = 64;

// What a token begins with, by its first byte: WHITESPACE, IDENT, INTEGER_LIT and STRING_LIT; the kind of a mark that no other mark
// begins with, BEGINS_OTHERS more for one that others begin with; 0 for any other byte.
static LEADS: [u8; 256] = *b"\x00\x00\x00\x00\x00\x00\x00\x00\x00\x03\x03\x00\x00\x03\x00\x00\
    \x00\x00\x00\x00\x00\x00\x00\x00\x00\x00\x00\x00\x00\x00\x00\x00\
    \x03\x00\x20\x1b\x00\x00\x00\x00\x0a\x0b\x56\x54\x07\x55\x48\x17\
    \x1e\x1e\x1e\x1e\x1e\x1e\x1e\x1e\x1e\x1e\x46\x05\x00\x00\x00\x00\
    \x00\x21\x21\x21\x21\x21\x21\x21\x21\x21\x21\x21\x21\x21\x21\x21\
    \x21\x21\x21\x21\x21\x21\x21\x21\x21\x21\x21\x0e\x00\x4f\x00\x21\
    \x00\x21\x21\x21\x21\x21\x21\x21\x21\x21\x21\x21\x21\x21\x21\x21\
    \x21\x21\x21\x21\x21\x21\x21\x21\x21\x21\x21\x4c\x00\x0d\x00\x00\
    \x00\x00\x00\x00\x00\x00\x00\x00\x00\x00\x00\x00\x00\x00\x00\x00\
    \x00\x00\x00\x00\x00\x00\x00\x00\x00\x00\x00\x00\x00\x00\x00\x00\
    \x00\x00\x00\x00\x00\x00\x00\x00\x00\x00\x00\x00\x00\x00\x00\x00\
    \x00\x00\x00\x00\x00\x00\x00\x00\x00\x00\x00\x00\x00\x00\x00\x00\
    \x00\x00\x00\x00\x00\x00\x00\x00\x00\x00\x00\x00\x00\x00\x00\x00\
    \x00\x00\x00\x00\x00\x00\x00\x00\x00\x00\x00\x00\x00\x00\x00\x00\
    \x00\x00\x00\x00\x00\x00\x00\x00\x00\x00\x00\x00\x00\x00\x00\x00\
    \x00\x00\x00\x00\x00\x00\x00\x00\x00\x00\x00\x00\x00\x00\x00\x00";

// The byte at a place, or 0 past the end.
pub fn peek(s: &[u8], i: usize) -> u8
    ensures { result ≡ byte_at s.now i }
{
    s.get(i).copied().unwrap_or(0)
}

// What a token begins with whose first byte this is.
pub fn lead(b: u8) -> u32
    ensures { result ≡ lead_of b }
{
    u32::from(LEADS[usize::from(b)])
}

// Whether a byte is of a class.
pub fn in_class(b: u8, class: u8) -> bool
    ensures { result ≡ member class b }
{
    CLASSES[usize::from(b)] & class != 0
}

// The bytes from a place on; none where it is past the end.
fn rest(s: &[u8], from: usize) -> &[u8]
    ensures { result.now ≡ drop from s.now }
{
    s.get(from..).unwrap_or(&[])
}

// How many bytes of a class stand at the front.
pub fn run(s: &[u8], class: u8) -> usize
    ensures { result ≡ length (take_while (member class) s.now) }
{
    s.iter().take_while(|b| in_class(**b, class)).count()
}

// The place after the run of a class that begins at a place.
pub fn run_end(s: &[u8], from: usize, class: u8) -> usize
    ensures { (result ≡ run_end (member class) s.now from) × (result ≤ max from (length s.now)) × (from ≤ result) }
{
    for end in from..s.len() {
        if !in_class(s[end], class) {
            return end;
        }
    }
    from.max(s.len())
}

// Whether a byte is one of a range.
fn between(b: u8, least: u8, most: u8) -> bool
    ensures { result ≡ sought least most b }
{
    (least <= b) & (b <= most)
}

// Whether a byte of a range stands in a part: no early exit, so that it is done sixteen at a time.
fn any_between(s: &[u8], least: u8, most: u8) -> bool
    ensures { result ≡ any (sought least most) s.now }
{
    s.iter()
        .fold(false, |found, b| found | between(*b, least, most))
}

// Whether a byte stands in a part.
pub fn has_byte(s: &[u8], x: u8) -> bool
    ensures { result ≡ has s.now x }
{
    s.contains(&x)
}

// Whether all bytes are below 128.
pub fn is_ascii(s: &[u8]) -> bool
    ensures { result ≡ not (any (sought 128 255) s.now) }
{
    !any_between(s, 128, 255)
}

// Past the whole chunks of bytes in which none of a range stands. By hand: of `chunks_exact(16).take_while(..).count()` it was not proved that each
// chunk before the count has no such byte.
fn skip_chunks(s: &[u8], from: usize, least: u8, most: u8) -> usize
    requires { from ≤ length s.now }
    ensures { (result ≡ chunks_end (unsought least most) s.now from) × (result ≤ length s.now) }
{
    let mut i = from;
    while i + 16 <= s.len() {
        if any_between(&s[i..i + 16], least, most) {
            return i;
        }
        i += 16;
    }
    i
}

// How many bytes of none of a range stand at the front. It and `run` stay two: each test stands in its clause, and one function would need it as a ghost
// parameter beside the closure.
fn gap(s: &[u8], least: u8, most: u8) -> usize
    ensures { result ≡ length (take_while (unsought least most) s.now) }
{
    s.iter().take_while(|b| !between(**b, least, most)).count()
}

// The next byte of a range from a place on, or the length.
fn next_between(s: &[u8], from: usize, least: u8, most: u8) -> usize
    requires { from ≤ length s.now }
    ensures { (result ≡ run_end (unsought least most) s.now from) × (result ≤ length s.now) × (from ≤ result) }
{
    if from < s.len() && between(s[from], least, most) {
        return from;
    }
    let i = skip_chunks(s, from, least, most);
    i + gap(rest(s, i), least, most)
}

// The next place of a byte from a place on, or the length.
pub fn next_byte(s: &[u8], from: usize, x: u8) -> usize
    requires { (from ≤ length s.now) × (x < 255) }
    ensures { (result ≡ run_end (other_than x) s.now from) × (result ≤ length s.now) × (from ≤ result) }
{
    next_between(s, from, x, x)
}

// The next byte of 128 or more from a place on, or the length.
pub fn skip_ascii(s: &[u8], from: usize) -> usize
    requires { from ≤ length s.now }
    ensures { (result ≡ run_end (unsought 128 255) s.now from) × (result ≤ length s.now) × (from ≤ result) }
{
    next_between(s, from, 128, 255)
}

// The range of each later byte in most rows of table 3-7.
const LATER: (u8, u8) = (0x80, 0xBF);

// Whether each byte is in the range at its place.
fn in_ranges(row: &[(u8, u8)], s: &[u8]) -> bool
    ensures { result ≡ list_all (λ p. leb p.0.0 p.1 && leb p.1 p.0.1) (zip row.now s.now) }
{
    row.iter().zip(s).all(|(r, b)| (r.0 <= *b) & (*b <= r.1))
}

// Whether the bytes begin with one in each range of a row of table 3-7.
fn begins(s: &[u8], row: &[(u8, u8)]) -> bool
    ensures { result ≡ fits (map (λ r. r.0 to r.1) row.now) s.now }
{
    row.len() <= s.len() && in_ranges(row, s)
}

// The length of the well-formed UTF-8 sequence at the front, or 0: the rows of table 3-7 in order.
fn scan_sequence(s: &[u8]) -> usize
    ensures { result ≡ sequence s.now }
{
    if begins(s, &[(0x00, 0x7F)]) {
        return 1;
    }
    if begins(s, &[(0xC2, 0xDF), LATER]) {
        return 2;
    }
    if begins(s, &[(0xE0, 0xE0), (0xA0, 0xBF), LATER])
        | begins(s, &[(0xE1, 0xEC), LATER, LATER])
        | begins(s, &[(0xED, 0xED), (0x80, 0x9F), LATER])
        | begins(s, &[(0xEE, 0xEF), LATER, LATER])
    {
        return 3;
    }
    if begins(s, &[(0xF0, 0xF0), (0x90, 0xBF), LATER, LATER])
        | begins(s, &[(0xF1, 0xF3), LATER, LATER, LATER])
        | begins(s, &[(0xF4, 0xF4), (0x80, 0x8F), LATER, LATER])
    {
        return 4;
    }
    0
}

// The same at a place.
pub fn sequence_at(s: &[u8], at: usize) -> usize
    requires { at ≤ length s.now }
    ensures { result ≡ sequence (drop at s.now) }
{
    scan_sequence(&s[at..])
}
