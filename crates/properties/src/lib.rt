// Associations and the section: the rest of `grammar/properties.rs`.

#![tactic(auto)]

ghost use Rattle.predictive.specs.Grammar.{seq};
ghost use Rattle.predictive.specs.Notation.{maybe};
ghost use Rattle.aadl.specs.Kinds as K;
ghost use Rattle.aadl.specs.Section as G;
ghost use Rattle.parser.specs.Parsers.{ReadsPart, ReadsWithin};

use expressions::property_expression;
use grammar::{classifier_ref, in_modes};
use operands::containment_path;
use parser::Parser;
use syntax_kind::{
    APPLIES_KW, APPLIES_TO, BINDING_KW, COLON_COLON, COMMA, CONSTANT_KW, FAT_ARROW, IDENT,
    IN_BINDING, IN_KW, L_PAREN, MODAL_PROPERTY_VALUE, MODES_KW, NONE_KW, PLUS_ARROW, PROPERTIES_KW,
    PROPERTY_ASSOCIATION, PROPERTY_REF, PROPERTY_SECTION, R_PAREN, SEMICOLON, TO_KW,
};

// The section: `properties`, then `none;` or associations.
pub fn property_section(p: &mut Parser<'_>)
    ensures { ReadsWithin p.old.left G.section p.old p.new }
{
    let m = p.start();
    p.bump(PROPERTIES_KW);
    if p.at(NONE_KW) {
        p.bump(NONE_KW);
        p.expect(SEMICOLON);
        m.complete(p, PROPERTY_SECTION);
        return;
    }
    while p.at_name() {
        property_association(p);
    }
    m.complete(p, PROPERTY_SECTION);
}

fn property_association(p: &mut Parser<'_>)
    ensures { ReadsWithin p.old.left G.read_association p.old p.new }
{
    let m = p.start();
    property_ref(p);
    arrow(p);
    p.eat(CONSTANT_KW);
    property_values(p);
    applies_to(p);
    in_binding(p);
    p.expect(SEMICOLON);
    m.complete(p, PROPERTY_ASSOCIATION);
}

// `Name` or `PropSet::Name`.
fn property_ref(p: &mut Parser<'_>)
    ensures { ReadsPart (G.property_ref (G.property_name 3) (G.property_name 2)) p.old p.new }
{
    let m = p.start();
    first_name(p);
    name_in_set(p);
    m.complete(p, PROPERTY_REF);
}

// The first name: an identifier, in most cases, and not worth a call.
fn first_name(p: &mut Parser<'_>)
    ensures { ReadsPart (G.property_name 3) p.old p.new }
{
    if p.at(IDENT) {
        p.bump(IDENT);
    } else {
        property_name(p, 3);
    }
}

// `::` and a name, if `::` stands.
fn name_in_set(p: &mut Parser<'_>)
    ensures { ReadsPart (maybe (seq (G.begun K.COLON_COLON) (G.property_name 2))) p.old p.new }
{
    if p.at(COLON_COLON) {
        p.bump(COLON_COLON);
        property_name(p, 2);
    }
}

// A name that may begin an association, or a message.
fn property_name(p: &mut Parser<'_>, message: u8)
    ensures { ReadsPart (G.property_name message) p.old p.new }
{
    if p.at_name() {
        p.bump_any();
    } else {
        p.error(u32::from(message));
    }
}

// `=>` or `+=>`.
fn arrow(p: &mut Parser<'_>)
    ensures { ReadsPart G.arrow p.old p.new }
{
    if p.at_either(FAT_ARROW, PLUS_ARROW) {
        p.bump_any();
    } else {
        p.error(1);
    }
}

// Values, with commas between them. This loop and that of `paths` differ in what is read: one function for both would take that as a closure, and to
// the same lines would come a bound, a ghost field and a closure at each call.
fn property_values(p: &mut Parser<'_>)
    ensures { ReadsWithin p.old.left (G.commas G.value G.value) p.old p.new }
{
    loop {
        property_value(p);
        if !p.at(COMMA) {
            return;
        }
        p.bump(COMMA);
    }
}

// An expression, and the modes in which it holds, if they stand.
fn property_value(p: &mut Parser<'_>)
    ensures { ReadsWithin p.old.left G.value p.old p.new }
{
    property_expression(p);
    if p.at_pair(IN_KW, MODES_KW) {
        let m = p.start();
        in_modes(p);
        m.complete(p, MODAL_PROPERTY_VALUE);
    }
}

// `applies to` and paths, if `applies` stands.
fn applies_to(p: &mut Parser<'_>)
    ensures { ReadsPart (maybe G.applies_to) p.old p.new }
{
    if p.at(APPLIES_KW) {
        let m = p.start();
        p.bump(APPLIES_KW);
        p.expect(TO_KW);
        paths(p);
        m.complete(p, APPLIES_TO);
    }
}

// Paths, with commas between them.
fn paths(p: &mut Parser<'_>)
    ensures { ReadsPart (G.commas G.path G.path) p.old p.new }
{
    loop {
        containment_path(p);
        if !p.at(COMMA) {
            return;
        }
        p.bump(COMMA);
    }
}

// `in binding` and a classifier in parentheses, if `in binding` stands.
fn in_binding(p: &mut Parser<'_>)
    ensures { ReadsWithin p.old.left (maybe G.in_binding) p.old p.new }
{
    if p.at_pair(IN_KW, BINDING_KW) {
        let m = p.start();
        p.bump(IN_KW);
        p.bump(BINDING_KW);
        p.expect(L_PAREN);
        classifier_ref(p);
        p.expect(R_PAREN);
        m.complete(p, IN_BINDING);
    }
}
