// Paths, and values that hold no expression: `containment_path` and the plain arms of `property_expression_primary`.

#![tactic(auto)]

ghost use Rattle.predictive.specs.Grammar.{any, seq, fail, many, opt, unless};
ghost use Rattle.predictive.specs.Notation.{maybe};
ghost use Rattle.predictive.specs.Reader.{ones};
ghost use Rattle.aadl.specs.Kinds as K;
ghost use Rattle.aadl.specs.Section as G;
ghost use Rattle.parser.specs.Parsers.{ReadsPart, ReadsNode};

use categories::at_ident_or_kw;
use parser::{CompletedMarker, Parser};
use syntax_kind::{
    BOOLEAN_VALUE, COLON_COLON, COMPUTE_KW, COMPUTED_VALUE, CONTAINMENT_PATH, DOT, DOT_DOT, ERROR,
    IDENT, INTEGER_LIT, INTEGER_VALUE, L_BRACKET, L_PAREN, PROPERTY_EXPRESSION, R_BRACKET, R_PAREN,
    REAL_LIT, REAL_VALUE, REFERENCE_KW, REFERENCE_VALUE, STRING_LIT, STRING_VALUE,
};

// PATHS

// `..` and an integer, which may be missing, if `..` stands.
fn index_end(p: &mut Parser<'_>)
    ensures { ReadsPart (maybe G.index_end) p.old p.new }
{
    if p.at(DOT_DOT) {
        p.bump(DOT_DOT);
        p.eat(INTEGER_LIT);
    }
}

// An integer, a range of integers, a name, or nothing.
fn index(p: &mut Parser<'_>)
    ensures { ReadsPart (maybe G.index) p.old p.new }
{
    if p.at(INTEGER_LIT) {
        p.bump(INTEGER_LIT);
        index_end(p);
    } else {
        p.eat(IDENT);
    }
}

fn array_subscripts(p: &mut Parser<'_>)
    ensures { ReadsPart (many G.subscript) p.old p.new }
{
    while p.at(L_BRACKET) {
        p.bump(L_BRACKET);
        index(p);
        p.expect(R_BRACKET);
    }
}

fn segment(p: &mut Parser<'_>)
    ensures { ReadsPart (maybe G.segment) p.old p.new }
{
    if p.at(IDENT) {
        p.bump(IDENT);
        array_subscripts(p);
    }
}

// The segments of a path, if a name stands. A loop of its own: as a closure's it would be no plainer (`property_values`).
fn segments(p: &mut Parser<'_>)
    ensures { ReadsPart (maybe G.segments) p.old p.new }
{
    if p.at(IDENT) {
        loop {
            segment(p);
            if !p.at(DOT) {
                return;
            }
            p.bump(DOT);
        }
    }
}

// A path, which may have no segment: `sub1.sub2[1].feature`.
pub fn containment_path(p: &mut Parser<'_>)
    ensures { ReadsPart G.path p.old p.new }
{
    let m = p.start();
    segments(p);
    m.complete(p, CONTAINMENT_PATH);
}

// VALUES

// An integer and its unit, if it has one.
pub fn integer_value(p: &mut Parser<'_>) -> CompletedMarker
    ensures { ReadsNode G.integer_value p.old result p.new }
{
    let m = p.start();
    p.bump(INTEGER_LIT);
    p.eat(IDENT);
    m.complete(p, INTEGER_VALUE)
}

pub fn real_value(p: &mut Parser<'_>) -> CompletedMarker
    ensures { ReadsNode G.real_value p.old result p.new }
{
    let m = p.start();
    p.bump(REAL_LIT);
    p.eat(IDENT);
    m.complete(p, REAL_VALUE)
}

pub fn string_value(p: &mut Parser<'_>) -> CompletedMarker
    ensures { ReadsNode G.string_value p.old result p.new }
{
    let m = p.start();
    p.bump(STRING_LIT);
    m.complete(p, STRING_VALUE)
}

// `true` or `false`.
pub fn boolean_value(p: &mut Parser<'_>) -> CompletedMarker
    ensures { ReadsNode (G.node K.BOOLEAN_VALUE any) p.old result p.new }
{
    let m = p.start();
    p.bump_any();
    m.complete(p, BOOLEAN_VALUE)
}

pub fn reference_value(p: &mut Parser<'_>) -> CompletedMarker
    ensures { ReadsNode G.reference_value p.old result p.new }
{
    let m = p.start();
    p.bump(REFERENCE_KW);
    p.expect(L_PAREN);
    containment_path(p);
    p.expect(R_PAREN);
    m.complete(p, REFERENCE_VALUE)
}

pub fn computed_value(p: &mut Parser<'_>) -> CompletedMarker
    ensures { ReadsNode G.computed_value p.old result p.new }
{
    let m = p.start();
    p.bump(COMPUTE_KW);
    p.expect(L_PAREN);
    p.eat(IDENT);
    p.expect(R_PAREN);
    m.complete(p, COMPUTED_VALUE)
}

// A name right after an operand's `::`, which may be missing.
fn name_after(p: &mut Parser<'_>)
    ensures { ReadsPart (opt (unless (ones G.names)) G.name) p.old p.new }
{
    if at_ident_or_kw(p) {
        p.bump_any();
    }
}

// A named value, an enumeration literal or a property constant.
pub fn named_value(p: &mut Parser<'_>) -> CompletedMarker
    ensures { ReadsNode G.named_value p.old result p.new }
{
    let m = p.start();
    p.bump(IDENT);
    while p.at(COLON_COLON) {
        p.bump(COLON_COLON);
        name_after(p);
    }
    m.complete(p, PROPERTY_EXPRESSION)
}

// A C-style literal, which is not valid AADL.
pub fn c_style_value(p: &mut Parser<'_>) -> CompletedMarker
    ensures { ReadsNode (G.node K.ERROR (seq (fail 4) any)) p.old result p.new }
{
    let m = p.start();
    p.error(4);
    p.bump_any();
    m.complete(p, ERROR)
}
