// Names, directions and categories: the part of `grammar/mod.rs` that looks at single words.

#![tactic(auto)]

ghost use Rattle.std.specs.Prelude.{◌≡◌, [], ◌∷◌};
ghost use Rattle.predictive.specs.Grammar.{tok};
ghost use Rattle.predictive.specs.Reader.{ones};
ghost use Rattle.aadl.specs.Kinds as K;
ghost use Rattle.aadl.specs.Section as G;
ghost use Rattle.parser.specs.Parsers.{stand, ReadsPart};

use parser::Parser;
use syntax_kind::{
    ACCESS_KW, BUS_KW, COMPONENT_CATEGORY, DATA_KW, DIRECTION, EVENT_KW, FEATURE_KW, GROUP_KW,
    IDENT, IN_KW, OUT_KW, PORT_KW, PROCESSOR_KW, PROVIDES_KW, REQUIRES_KW, SUBPROGRAM_KW,
    THREAD_KW, VIRTUAL_KW, is_component_category_kw, is_keyword,
};

// NAMES

// A name stands: an identifier or a keyword.
pub fn at_ident_or_kw(p: &Parser<'_>) -> bool
    ensures { result ≡ stand (ones G.names) p.now }
{
    let kind = p.current();
    (kind == IDENT) | is_keyword(kind)
}

// A name, or a message.
pub fn name_or_error(p: &mut Parser<'_>, message: u8)
    ensures { ReadsPart (tok message G.names) p.old p.new }
{
    if at_ident_or_kw(p) {
        p.bump_any();
    } else {
        p.error(u32::from(message));
    }
}

// DIRECTIONS

// `in`, `in out`, `out`, `provides` or `requires`, if one stands.
pub fn direction(p: &mut Parser<'_>)
    ensures { ReadsPart G.direction p.old p.new }
{
    let kind = p.current();
    if kind == IN_KW {
        let m = p.start();
        p.bump(IN_KW);
        p.eat(OUT_KW);
        m.complete(p, DIRECTION);
    } else if (kind == OUT_KW) | (kind == PROVIDES_KW) | (kind == REQUIRES_KW) {
        let m = p.start();
        p.bump_any();
        m.complete(p, DIRECTION);
    }
}

// CATEGORIES

// What follows `virtual`.
fn virtual_kind(p: &mut Parser<'_>)
    ensures { ReadsPart (tok 8 (G.numbers (K.BUS_KW ∷ K.PROCESSOR_KW ∷ []))) p.old p.new }
{
    if p.at_either(BUS_KW, PROCESSOR_KW) {
        p.bump_any();
    } else {
        p.error(8);
    }
}

// A component category, if one stands: `system`, `thread group`, `virtual processor`.
pub fn component_category(p: &mut Parser<'_>)
    ensures { ReadsPart G.component_category p.old p.new }
{
    let kind = p.current();
    if !is_component_category_kw(kind) {
        return;
    }
    let m = p.start();
    if kind == VIRTUAL_KW {
        p.bump(VIRTUAL_KW);
        virtual_kind(p);
        m.complete(p, COMPONENT_CATEGORY);
    } else if (kind == THREAD_KW) | (kind == SUBPROGRAM_KW) {
        p.bump_any();
        p.eat(GROUP_KW);
        m.complete(p, COMPONENT_CATEGORY);
    } else {
        p.bump_any();
        m.complete(p, COMPONENT_CATEGORY);
    }
}

// The category of a feature or of a component, if one stands: the longest that does.
pub fn category(p: &mut Parser<'_>)
    ensures { ReadsPart G.category p.old p.new }
{
    if p.at_pair(DATA_KW, PORT_KW) {
        p.bump(DATA_KW);
        p.bump(PORT_KW);
        return;
    }
    if p.at_pair(EVENT_KW, DATA_KW) {
        p.bump(EVENT_KW);
        p.bump(DATA_KW);
        p.eat(PORT_KW);
        return;
    }
    if p.at_pair(EVENT_KW, PORT_KW) {
        p.bump(EVENT_KW);
        p.bump(PORT_KW);
        return;
    }
    if p.at(EVENT_KW) {
        p.bump(EVENT_KW);
        return;
    }
    if p.at_pair(DATA_KW, ACCESS_KW) {
        p.bump(DATA_KW);
        p.bump(ACCESS_KW);
        return;
    }
    if p.at_pair(BUS_KW, ACCESS_KW) {
        p.bump(BUS_KW);
        p.bump(ACCESS_KW);
        return;
    }
    if p.at(FEATURE_KW) {
        p.bump(FEATURE_KW);
        p.eat(GROUP_KW);
        return;
    }
    if is_component_category_kw(p.current()) {
        component_category(p);
        return;
    }
    if p.at(PORT_KW) {
        p.bump(PORT_KW);
    } else {
        p.eat(ACCESS_KW);
    }
}
