// Expressions: `property_expression` and what it calls, a cycle in which the openers left fall.

#![tactic(auto)]

ghost use Rattle.std.specs.Prelude.{◌≡◌, false, [], ◌∷◌, ℕ, suc, Some};
ghost use Rattle.predictive.specs.Grammar.{Choice, opt, opens};
ghost use Rattle.predictive.specs.Reader.{ones};
ghost use Rattle.aadl.specs.Kinds as K;
ghost use Rattle.aadl.specs.Section as G;
ghost use Rattle.parser.specs.Parsers.{stand, ReadsWithin, ReadsNodeWithin, ReadsOperandWithin};
ghost use Rattle.expressions.specs.Openers.{beginnings, signed_value, opener_value};
ghost use Rattle.expressions.specs.Behind.{Extends, ToRange, ToExpression};

use grammar::classifier_value;
use operands::{
    boolean_value, c_style_value, computed_value, integer_value, named_value, real_value,
    reference_value, string_value,
};
use parser::{C_STYLE, CompletedMarker, Parser, TOO_DEEP};
use syntax_kind::{
    BINARY_EXPR, BOOLEAN_VALUE, CLASSIFIER_KW, COMMA, COMPUTE_KW, DELTA_KW, DELTA_VALUE, DOT_DOT,
    FALSE_KW, FAT_ARROW, IDENT, INTEGER_LIT, L_BRACKET, L_PAREN, LIST_VALUE, MINUS, NOT_KW, PLUS,
    PROPERTY_EXPRESSION, R_BRACKET, R_PAREN, RANGE_VALUE, REAL_LIT, RECORD_FIELD, RECORD_VALUE,
    REFERENCE_KW, SEMICOLON, SLASH, STAR, STRING_LIT, TRUE_KW,
};

// OPERANDS

// An opener stands: `not`, `(`, `[` or a sign.
fn at_opener(p: &Parser<'_>) -> bool
    ensures { result ≡ stand (ones (G.numbers (K.NOT_KW ∷ K.L_PAREN ∷ K.L_BRACKET ∷ K.PLUS ∷ K.MINUS ∷ []))) p.now }
{
    let kind = p.kind();
    (kind == NOT_KW) | (kind == L_PAREN) | (kind == L_BRACKET) | (kind == PLUS) | (kind == MINUS)
}

// An operand, or message 5 where none stands.
#[cycle(expression)]
fn property_expression_primary(p: &mut Parser<'_>) -> Option<CompletedMarker>
    ensures { ReadsOperandWithin p.old.left G.operand p.old result p.new }
{
    if at_opener(p) {
        return opener(p);
    }
    let kind = p.kind();
    if (kind == TRUE_KW) | (kind == FALSE_KW) {
        return Some(boolean_value(p));
    }
    match kind {
        INTEGER_LIT => Some(integer_value(p)),
        REAL_LIT => Some(real_value(p)),
        STRING_LIT => Some(string_value(p)),
        CLASSIFIER_KW => Some(classifier_value(p)),
        REFERENCE_KW => Some(reference_value(p)),
        COMPUTE_KW => Some(computed_value(p)),
        IDENT => Some(named_value(p)),
        _ => no_operand(p),
    }
}

// Where none of the kinds stands that begin an operand: a C-style literal, or message 5.
fn no_operand(p: &mut Parser<'_>) -> Option<CompletedMarker>
    requires { stand (ones beginnings) p.old ≡ false }
    ensures { (d : ℕ) → ReadsOperandWithin d G.operand p.old result p.new }
{
    if p.current() == C_STYLE {
        return Some(c_style_value(p));
    }
    p.error(5);
    None
}

// What begins with an opener: refused where none is left.
#[cycle(expression)]
fn opener(p: &mut Parser<'_>) -> Option<CompletedMarker>
    ensures { ReadsOperandWithin p.old.left (opens opener_value) p.old result p.new }
{
    let left = p.left;
    if left == 0 {
        p.stop(TOO_DEEP);
        return None;
    }
    p.left = left - 1;
    let value = opened(p);
    p.left = left;
    Some(value)
}

// What stands behind an opener that is not refused.
#[cycle(expression)]
fn opened(p: &mut Parser<'_>) -> CompletedMarker
    ensures { ReadsOperandWithin (suc p.old.left) opener_value p.old (Some result) p.new }
{
    match p.kind() {
        NOT_KW => not_value(p),
        L_PAREN => list_value(p),
        L_BRACKET => record_value(p),
        _ => signed_value(p),
    }
}

#[cycle(expression)]
fn not_value(p: &mut Parser<'_>) -> CompletedMarker
    ensures { ReadsNodeWithin (suc p.old.left) G.not_value p.old result p.new }
{
    let m = p.start();
    p.bump(NOT_KW);
    let lhs = property_expression_primary(p);
    expr(p, lhs);
    m.complete(p, BOOLEAN_VALUE)
}

#[cycle(expression)]
fn list_value(p: &mut Parser<'_>) -> CompletedMarker
    ensures { ReadsNodeWithin (suc p.old.left) G.list_value p.old result p.new }
{
    let m = p.start();
    p.bump(L_PAREN);
    if p.at(R_PAREN) {
        p.bump(R_PAREN);
        return m.complete(p, LIST_VALUE);
    }
    property_expression(p);
    while p.at(COMMA) {
        p.bump(COMMA);
        property_expression(p);
    }
    p.expect(R_PAREN);
    m.complete(p, LIST_VALUE)
}

#[cycle(expression)]
fn record_value(p: &mut Parser<'_>) -> CompletedMarker
    ensures { ReadsNodeWithin (suc p.old.left) G.record_value p.old result p.new }
{
    let m = p.start();
    p.bump(L_BRACKET);
    while p.at(IDENT) {
        let field = p.start();
        p.bump(IDENT);
        p.expect(FAT_ARROW);
        property_expression(p);
        p.expect(SEMICOLON);
        field.complete(p, RECORD_FIELD);
    }
    p.expect(R_BRACKET);
    m.complete(p, RECORD_VALUE)
}

// A sign and the operand that it is for, not the sum around them: `-1 + 2` is a sum.
#[cycle(expression)]
fn signed_value(p: &mut Parser<'_>) -> CompletedMarker
    ensures { ReadsNodeWithin (suc p.old.left) signed_value p.old result p.new }
{
    let m = p.start();
    p.bump_any();
    property_expression_primary(p);
    m.complete(p, PROPERTY_EXPRESSION)
}

// EXPRESSIONS

// An operator stands: `*`, `/`, `+`, `-` or `..`.
fn at_operator(p: &Parser<'_>) -> bool
    ensures { result ≡ stand (ones (G.numbers (K.STAR ∷ K.SLASH ∷ K.PLUS ∷ K.MINUS ∷ K.DOT_DOT ∷ []))) p.now }
{
    let kind = p.kind();
    (kind == STAR) | (kind == SLASH) | (kind == PLUS) | (kind == MINUS) | (kind == DOT_DOT)
}

// Most operands have no operator behind them: what is behind one has functions of its own, and the readers stay small. `product` and `sum` differ in
// their operators and in what they read: one function for both would call that through a closure, and a cycle has no proof through one.

// From an operand to a product: the factors behind it, if any.
#[cycle(expression)]
fn product(p: &mut Parser<'_>, lhs: Option<CompletedMarker>) -> Option<CompletedMarker>
    ensures { Extends G.operand G.product lhs p.old result p.new }
{
    let mut lhs = lhs?;
    while p.at_either(STAR, SLASH) {
        let m = lhs.precede(p);
        p.bump_any();
        property_expression_primary(p);
        lhs = m.complete(p, BINARY_EXPR);
    }
    Some(lhs)
}

#[cycle(expression)]
fn multiplicative_expression(p: &mut Parser<'_>) -> Option<CompletedMarker>
    ensures { ReadsOperandWithin p.old.left G.product p.old result p.new }
{
    let lhs = property_expression_primary(p);
    product(p, lhs)
}

// From a product to a sum: the terms behind it, if any.
#[cycle(expression)]
fn sum(p: &mut Parser<'_>, lhs: Option<CompletedMarker>) -> Option<CompletedMarker>
    ensures { Extends G.product G.sum lhs p.old result p.new }
{
    let mut lhs = lhs?;
    while p.at_either(PLUS, MINUS) {
        let m = lhs.precede(p);
        p.bump_any();
        multiplicative_expression(p);
        lhs = m.complete(p, BINARY_EXPR);
    }
    Some(lhs)
}

#[cycle(expression)]
fn additive_expression(p: &mut Parser<'_>) -> Option<CompletedMarker>
    ensures { ReadsOperandWithin p.old.left G.sum p.old result p.new }
{
    let lhs = multiplicative_expression(p);
    sum(p, lhs)
}

// `delta` and a sum, if `delta` stands.
#[cycle(expression)]
fn delta(p: &mut Parser<'_>)
    ensures { (c : Choice) → ReadsWithin p.old.left (opt c G.delta_value) p.old p.new }
{
    if p.at(DELTA_KW) {
        let m = p.start();
        p.bump(DELTA_KW);
        additive_expression(p);
        m.complete(p, DELTA_VALUE);
    }
}

// From a sum to a range: `..` and a sum behind it, with what may follow.
#[cycle(expression)]
fn range(p: &mut Parser<'_>, lhs: Option<CompletedMarker>)
    ensures { ToRange lhs p.old p.new }
{
    if let Some(lhs) = lhs {
        let m = lhs.precede(p);
        p.bump(DOT_DOT);
        additive_expression(p);
        delta(p);
        m.complete(p, RANGE_VALUE);
    }
}

// From an operand to an expression: what stands behind it, if anything.
#[cycle(expression)]
fn expr(p: &mut Parser<'_>, lhs: Option<CompletedMarker>)
    ensures { ToExpression lhs p.old p.new }
{
    let lhs = product(p, lhs);
    let lhs = sum(p, lhs);
    if p.at(DOT_DOT) {
        range(p, lhs);
    }
}

// A sum, or a range of two sums; an operand alone, in most cases.
#[cycle(expression)]
pub fn property_expression(p: &mut Parser<'_>)
    ensures { ReadsWithin p.old.left G.expression p.old p.new }
{
    let lhs = property_expression_primary(p);
    if at_operator(p) {
        expr(p, lhs);
    }
}
