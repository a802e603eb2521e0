// Kinds of tokens and nodes by name, as `SyntaxKind` has them: those that the code names. And which kinds are of a class. They are numbers, since each
// function that takes a kind (`is_trivia`, `is_keyword`, `parser`) promises its answer for every number, and a lent word may hold one without a name here.

#![tactic(auto)]

ghost use Rattle.std.specs.Prelude.{◌≡◌};
ghost use Rattle.predictive.specs.Grammar.{has};
ghost use Rattle.aadl.specs.Symbols.{is_trivia};
ghost use Rattle.aadl.specs.Section.{keywords};
ghost use Rattle.syntax_kind.specs.Categories.{categories};
ghost use Rattle.syntax_kind.specs.Named.{named_kinds};

// No token of the language

pub const ERROR: u32 = 2;

// Trivia

pub const WHITESPACE: u32 = 3;

pub const COMMENT: u32 = 4;

// Punctuation

pub const SEMICOLON: u32 = 5;

pub const COLON: u32 = 6;

pub const COMMA: u32 = 7;

pub const DOT: u32 = 8;

pub const DOT_DOT: u32 = 9;

pub const L_PAREN: u32 = 10;

pub const R_PAREN: u32 = 11;

pub const L_BRACKET: u32 = 14;

pub const R_BRACKET: u32 = 15;

pub const ARROW: u32 = 16;

pub const BIDI_ARROW: u32 = 17;

pub const FAT_ARROW: u32 = 18;

pub const PLUS_ARROW: u32 = 19;

pub const PLUS: u32 = 20;

pub const MINUS: u32 = 21;

pub const STAR: u32 = 22;

pub const SLASH: u32 = 23;

pub const COLON_COLON: u32 = 24;

pub const ANNEX_OPEN: u32 = 25;

pub const ANNEX_CLOSE: u32 = 26;

pub const DASH_BRACKET: u32 = 28;

pub const BRACKET_ARROW: u32 = 29;

// Literals

pub const INTEGER_LIT: u32 = 30;

pub const REAL_LIT: u32 = 31;

pub const STRING_LIT: u32 = 32;

// Identifiers

pub const IDENT: u32 = 33;

// Keywords

pub const PACKAGE_KW: u32 = 34;

pub const NONE_KW: u32 = 39;

// Component categories

pub const SYSTEM_KW: u32 = 41;

pub const PROCESS_KW: u32 = 42;

pub const THREAD_KW: u32 = 43;

pub const GROUP_KW: u32 = 44;

pub const PROCESSOR_KW: u32 = 45;

pub const VIRTUAL_KW: u32 = 46;

pub const BUS_KW: u32 = 47;

pub const MEMORY_KW: u32 = 48;

pub const DEVICE_KW: u32 = 49;

pub const SUBPROGRAM_KW: u32 = 50;

pub const DATA_KW: u32 = 51;

pub const ABSTRACT_KW: u32 = 52;

// Structure keywords

pub const MODES_KW: u32 = 59;

pub const PROPERTIES_KW: u32 = 60;

// Feature keywords

pub const IN_KW: u32 = 65;

pub const OUT_KW: u32 = 66;

pub const PORT_KW: u32 = 67;

pub const EVENT_KW: u32 = 68;

pub const ACCESS_KW: u32 = 69;

pub const PROVIDES_KW: u32 = 70;

pub const REQUIRES_KW: u32 = 71;

pub const FEATURE_KW: u32 = 72;

// Property keywords

pub const CONSTANT_KW: u32 = 83;

pub const APPLIES_KW: u32 = 84;

pub const TO_KW: u32 = 85;

pub const DELTA_KW: u32 = 87;

pub const BINDING_KW: u32 = 90;

pub const CLASSIFIER_KW: u32 = 91;

pub const REFERENCE_KW: u32 = 92;

pub const COMPUTE_KW: u32 = 94;

// Boolean keywords

pub const TRUE_KW: u32 = 106;

pub const FALSE_KW: u32 = 107;

// Logical keywords

pub const NOT_KW: u32 = 108;

// AADL v2.3 (AS5506D) keywords

pub const FILE_KW: u32 = 114;

// Nodes: components

pub const COMPONENT_CATEGORY: u32 = 127;

// Nodes: prototypes

pub const PROTOTYPE_BINDING: u32 = 133;

pub const PROTOTYPE_BINDING_LIST: u32 = 134;

// Nodes: features

pub const DIRECTION: u32 = 147;

// Nodes: properties

pub const PROPERTY_SECTION: u32 = 169;

pub const PROPERTY_ASSOCIATION: u32 = 170;

pub const PROPERTY_REF: u32 = 171;

pub const APPLIES_TO: u32 = 172;

pub const CONTAINMENT_PATH: u32 = 173;

pub const IN_BINDING: u32 = 174;

pub const MODAL_PROPERTY_VALUE: u32 = 175;

// Nodes: property expressions

pub const PROPERTY_EXPRESSION: u32 = 181;

pub const BOOLEAN_VALUE: u32 = 182;

pub const INTEGER_VALUE: u32 = 183;

pub const REAL_VALUE: u32 = 184;

pub const STRING_VALUE: u32 = 185;

pub const RECORD_VALUE: u32 = 186;

pub const RECORD_FIELD: u32 = 187;

pub const LIST_VALUE: u32 = 188;

pub const RANGE_VALUE: u32 = 189;

pub const DELTA_VALUE: u32 = 190;

pub const BINARY_EXPR: u32 = 192;

pub const REFERENCE_VALUE: u32 = 193;

pub const CLASSIFIER_VALUE: u32 = 194;

pub const COMPUTED_VALUE: u32 = 195;

// Nodes: classifier references

pub const CLASSIFIER_REF: u32 = 197;

// The kinds named above; marks and keywords that aadl knows by their text alone come last.
const NAMED: [u32; 91] = [
    ERROR,
    WHITESPACE,
    COMMENT,
    SEMICOLON,
    COLON,
    COMMA,
    DOT,
    DOT_DOT,
    L_PAREN,
    R_PAREN,
    L_BRACKET,
    R_BRACKET,
    FAT_ARROW,
    PLUS_ARROW,
    PLUS,
    MINUS,
    STAR,
    SLASH,
    COLON_COLON,
    INTEGER_LIT,
    REAL_LIT,
    STRING_LIT,
    IDENT,
    NONE_KW,
    SYSTEM_KW,
    PROCESS_KW,
    THREAD_KW,
    GROUP_KW,
    PROCESSOR_KW,
    VIRTUAL_KW,
    BUS_KW,
    MEMORY_KW,
    DEVICE_KW,
    SUBPROGRAM_KW,
    DATA_KW,
    ABSTRACT_KW,
    MODES_KW,
    PROPERTIES_KW,
    IN_KW,
    OUT_KW,
    PORT_KW,
    EVENT_KW,
    ACCESS_KW,
    PROVIDES_KW,
    REQUIRES_KW,
    FEATURE_KW,
    CONSTANT_KW,
    APPLIES_KW,
    TO_KW,
    DELTA_KW,
    BINDING_KW,
    CLASSIFIER_KW,
    REFERENCE_KW,
    COMPUTE_KW,
    TRUE_KW,
    FALSE_KW,
    NOT_KW,
    COMPONENT_CATEGORY,
    PROTOTYPE_BINDING,
    PROTOTYPE_BINDING_LIST,
    DIRECTION,
    PROPERTY_SECTION,
    PROPERTY_ASSOCIATION,
    PROPERTY_REF,
    APPLIES_TO,
    CONTAINMENT_PATH,
    IN_BINDING,
    MODAL_PROPERTY_VALUE,
    PROPERTY_EXPRESSION,
    BOOLEAN_VALUE,
    INTEGER_VALUE,
    REAL_VALUE,
    STRING_VALUE,
    RECORD_VALUE,
    RECORD_FIELD,
    LIST_VALUE,
    RANGE_VALUE,
    DELTA_VALUE,
    BINARY_EXPR,
    REFERENCE_VALUE,
    CLASSIFIER_VALUE,
    COMPUTED_VALUE,
    CLASSIFIER_REF,
    ARROW,
    BIDI_ARROW,
    ANNEX_OPEN,
    ANNEX_CLOSE,
    DASH_BRACKET,
    BRACKET_ARROW,
    PACKAGE_KW,
    FILE_KW,
];

// Nothing calls this: its contract has every number above be the one that aadl gives the name.
pub fn named_kinds() -> [u32; 91]
    ensures { result ≡ named_kinds }
{
    NAMED
}

pub fn is_trivia(kind: u32) -> bool
    ensures { result ≡ is_trivia kind }
{
    (kind == WHITESPACE) | (kind == COMMENT)
}

pub fn is_keyword(kind: u32) -> bool
    ensures { result ≡ has keywords kind }
{
    (PACKAGE_KW <= kind) & (kind <= FILE_KW)
}

// Whether a component category can begin with a keyword.
pub fn is_component_category_kw(kind: u32) -> bool
    ensures { result ≡ has categories kind }
{
    (kind == SYSTEM_KW)
        | (kind == PROCESS_KW)
        | (kind == THREAD_KW)
        | (kind == PROCESSOR_KW)
        | (kind == VIRTUAL_KW)
        | (kind == BUS_KW)
        | (kind == MEMORY_KW)
        | (kind == DEVICE_KW)
        | (kind == SUBPROGRAM_KW)
        | (kind == DATA_KW)
        | (kind == ABSTRACT_KW)
}
