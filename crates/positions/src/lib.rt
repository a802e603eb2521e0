// The line and the column of a place in a text, step by step.

#![tactic(auto)]

ghost use Rattle.std.specs.Prelude.{◌≡◌, [], ◌∷◌};
ghost use Rattle.aadl.specs.Utf8.{is_continuation};
ghost use Rattle.aadl.specs.Listing.{line_after};
ghost use Rattle.positions.specs.Spots.{column_behind, capped, first, spot_after};

// A place in a text, with its line and column.
#[derive(Clone, Copy)]
pub struct Spot {
    pub place: usize,
    pub line: u32,
    pub column: u32,
}

// The line behind a byte.
fn line_behind(line: u32, b: u8) -> u32
    ensures { result ≡ capped (line_after line (b ∷ [])) }
{
    match b {
        b'\n' => line.saturating_add(1),
        _ => line,
    }
}

// Whether a byte continues a UTF-8 sequence.
fn is_continuation(b: u8) -> bool
    ensures { result ≡ is_continuation b }
{
    (0x80..=0xBF).contains(&b)
}

// The column behind a byte. A character is counted with its first one.
fn column_behind(column: u32, b: u8) -> u32
    ensures { result ≡ capped (column_behind column b) }
{
    match b {
        b'\n' => 1,
        _ if is_continuation(b) => column,
        _ => column.saturating_add(1),
    }
}

// The text's first place: line and column count from 1.
#[tactic(auto, unfolding(crate::specs::Spots::first))]
pub fn first_spot() -> Spot
    ensures { result ≡ first }
{
    Spot {
        place: 0,
        line: 1,
        column: 1,
    }
}

// The spot at a later place, or at the text's end if that comes before: from a spot that stands, byte by byte.
#[tactic(auto, using(crate::proofs::SpotLaws::walking_starts, crate::proofs::SpotLaws::walking_ends, crate::proofs::SpotLaws::walking_none))]
pub fn spot_at(src: &[u8], s: Spot, place: usize) -> Spot
    ensures { result ≡ spot_after src.now s place }
{
    let end = place.min(src.len());
    if end <= s.place {
        return s;
    }
    let mut line = s.line;
    let mut column = s.column;
    for b in &src[s.place..end] {
        line = line_behind(line, *b);
        column = column_behind(column, *b);
    }
    Spot {
        place: end,
        line,
        column,
    }
}
