// Classifiers with their bindings, a cycle in which the openers left fall, and modes: `grammar/mod.rs` and `grammar/modes.rs`.

#![tactic(auto)]

ghost use Rattle.std.specs.Prelude.{suc};
ghost use Rattle.predictive.specs.Grammar.{any};
ghost use Rattle.predictive.specs.Notation.{maybe};
ghost use Rattle.aadl.specs.Section as G;
ghost use Rattle.parser.specs.Parsers.{ReadsPart, ReadsWithin, ReadsNodeWithin};

use categories::{at_ident_or_kw, category, direction, name_or_error};
use parser::{CompletedMarker, Parser, TOO_DEEP};
use syntax_kind::{
    CLASSIFIER_KW, CLASSIFIER_REF, CLASSIFIER_VALUE, COLON_COLON, COMMA, DOT, FAT_ARROW, IN_KW,
    L_PAREN, MODES_KW, PROTOTYPE_BINDING, PROTOTYPE_BINDING_LIST, R_PAREN,
};

// CLASSIFIERS

// A classifier reference, if a name stands: `Pkg::Type`, `Pkg::Type.Impl`, with bindings after it.
#[cycle(classifier)]
pub fn classifier_ref(p: &mut Parser<'_>)
    ensures { ReadsWithin p.old.left (maybe G.classifier) p.old p.new }
{
    if !at_ident_or_kw(p) {
        return;
    }
    let m = p.start();
    p.bump_any();
    while p.at(COLON_COLON) {
        p.bump(COLON_COLON);
        name_or_error(p, 6);
    }
    implementation(p);
    prototype_bindings(p);
    m.complete(p, CLASSIFIER_REF);
}

// `.` and a name, if `.` stands.
fn implementation(p: &mut Parser<'_>)
    ensures { ReadsPart (maybe G.implementation) p.old p.new }
{
    if p.at(DOT) {
        p.bump(DOT);
        name_or_error(p, 7);
    }
}

// Bindings, if `(` stands: an opener.
#[cycle(classifier)]
fn prototype_bindings(p: &mut Parser<'_>)
    ensures { ReadsWithin p.old.left (maybe G.bindings) p.old p.new }
{
    if p.at(L_PAREN) {
        let left = p.left;
        if left == 0 {
            p.stop(TOO_DEEP);
            return;
        }
        p.left = left - 1;
        prototype_binding_list(p);
        p.left = left;
    }
}

#[cycle(classifier)]
fn prototype_binding_list(p: &mut Parser<'_>)
    ensures { ReadsWithin (suc p.old.left) G.binding_list p.old p.new }
{
    let m = p.start();
    p.bump(L_PAREN);
    binding_items(p);
    p.expect(R_PAREN);
    m.complete(p, PROTOTYPE_BINDING_LIST);
}

// Bindings with commas between them, if a name stands. A loop of its own in the cycle, which has no proof through a closure.
#[cycle(classifier)]
fn binding_items(p: &mut Parser<'_>)
    ensures { ReadsWithin (suc p.old.left) (maybe (G.commas (G.binding G.name) (G.binding any))) p.old p.new }
{
    if at_ident_or_kw(p) {
        prototype_binding(p);
        while p.at(COMMA) {
            p.bump(COMMA);
            prototype_binding(p);
        }
    }
}

// One binding, whose head is whatever token stands.
#[cycle(classifier)]
fn prototype_binding(p: &mut Parser<'_>)
    ensures { ReadsWithin (suc p.old.left) (G.binding any) p.old p.new }
{
    let m = p.start();
    p.bump_any();
    p.expect(FAT_ARROW);
    direction(p);
    category(p);
    classifier_ref(p);
    m.complete(p, PROTOTYPE_BINDING);
}

// `classifier` and a classifier in parentheses.
pub fn classifier_value(p: &mut Parser<'_>) -> CompletedMarker
    ensures { ReadsNodeWithin p.old.left G.classifier_value p.old result p.new }
{
    let m = p.start();
    p.bump(CLASSIFIER_KW);
    p.expect(L_PAREN);
    classifier_ref(p);
    p.expect(R_PAREN);
    m.complete(p, CLASSIFIER_VALUE)
}

// MODES

// `in modes` and the modes in parentheses, which the caller has seen to stand.
pub fn in_modes(p: &mut Parser<'_>)
    ensures { ReadsPart G.in_modes p.old p.new }
{
    p.bump(IN_KW);
    p.bump(MODES_KW);
    p.expect(L_PAREN);
    mode_items(p);
    p.expect(R_PAREN);
}

// Modes with commas between them, if a name stands. A loop of its own: as a closure's it would be no plainer (`property_values`).
fn mode_items(p: &mut Parser<'_>)
    ensures { ReadsPart (maybe (G.commas G.mode (maybe G.mode))) p.old p.new }
{
    if at_ident_or_kw(p) {
        mode_or_mapping(p);
        while p.at(COMMA) {
            p.bump(COMMA);
            mode_or_mapping(p);
        }
    }
}

// A mode, or a mode and what it is mapped to, if a name stands.
fn mode_or_mapping(p: &mut Parser<'_>)
    ensures { ReadsPart (maybe G.mode) p.old p.new }
{
    if at_ident_or_kw(p) {
        p.bump_any();
        mapping(p);
    }
}

// `=>` and the name of a mode, which may be missing, if `=>` stands.
fn mapping(p: &mut Parser<'_>)
    ensures { ReadsPart (maybe G.mapping) p.old p.new }
{
    if p.at(FAT_ARROW) {
        p.bump(FAT_ARROW);
        if at_ident_or_kw(p) {
            p.bump_any();
        }
    }
}
