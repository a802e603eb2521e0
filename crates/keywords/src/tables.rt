// The table of words by columns, a row for each word in the order of the kinds, and one row more, without letters, that is no word's. Each
// array is the list that specs/Tables.antt computes from the words of aadl: proofs/Columns.antt. By columns, since rows differ in how many letters they have
// and nothing is kept on a heap.

// The letters of the eighty-one words, laid end to end.
pub static LETTERS: [u8; 510] =
    *b"packagepublicprivatewithendnonerenamessystemprocessthreadgroupprocessorvirtualbusmemorydevicesubprogramdata\
    abstractimplementationextendsprototypesfeaturesflowsconnectionsmodespropertiessubcomponentsannexcallsinternal\
    inoutporteventaccessprovidesrequiresfeatureparameterinverseofflowsourcesinkpathinitialmodetransitionconstant\
    appliestoinheritdeltaisallbindingclassifierreferencerecordcomputetypesetrangeunitsenumerationlistaadlboolean\
    aadlintegeraadlrealaadlstringpropertytruefalsenotandorrefinedselfinterfacefile";

// Where the letters of each word start.
pub static STARTS: [u16; 82] = [
    0, 7, 13, 20, 24, 27, 31, 38, 44, 51, 57, 62, 71, 78, 81, 87, 93, 103, 107, 115, 129, 136, 146,
    154, 159, 170, 175, 185, 198, 203, 208, 216, 218, 221, 225, 230, 236, 244, 252, 259, 268, 275,
    277, 281, 287, 291, 295, 302, 306, 316, 324, 331, 333, 340, 345, 347, 350, 357, 367, 376, 382,
    389, 393, 396, 401, 406, 417, 421, 432, 443, 451, 461, 469, 473, 478, 481, 484, 486, 493, 497,
    506, 510,
];

// How many letters each word has.
pub static LENGTHS: [u8; 82] = [
    7, 6, 7, 4, 3, 4, 7, 6, 7, 6, 5, 9, 7, 3, 6, 6, 10, 4, 8, 14, 7, 10, 8, 5, 11, 5, 10, 13, 5, 5,
    8, 2, 3, 4, 5, 6, 8, 8, 7, 9, 7, 2, 4, 6, 4, 4, 7, 4, 10, 8, 7, 2, 7, 5, 2, 3, 7, 10, 9, 6, 7,
    4, 3, 5, 5, 11, 4, 11, 11, 8, 10, 8, 4, 5, 3, 3, 2, 7, 4, 9, 4, 0,
];

// The kind of each word.
pub static KINDS: [u8; 82] = [
    34, // package
    35, // public
    36, // private
    37, // with
    38, // end
    39, // none
    40, // renames
    41, // system
    42, // process
    43, // thread
    44, // group
    45, // processor
    46, // virtual
    47, // bus
    48, // memory
    49, // device
    50, // subprogram
    51, // data
    52, // abstract
    53, // implementation
    54, // extends
    55, // prototypes
    56, // features
    57, // flows
    58, // connections
    59, // modes
    60, // properties
    61, // subcomponents
    62, // annex
    63, // calls
    64, // internal
    65, // in
    66, // out
    67, // port
    68, // event
    69, // access
    70, // provides
    71, // requires
    72, // feature
    73, // parameter
    74, // inverse
    75, // of
    76, // flow
    77, // source
    78, // sink
    79, // path
    80, // initial
    81, // mode
    82, // transition
    83, // constant
    84, // applies
    85, // to
    86, // inherit
    87, // delta
    88, // is
    89, // all
    90, // binding
    91, // classifier
    92, // reference
    93, // record
    94, // compute
    95, // type
    96, // set
    97, // range
    98, // units
    99, // enumeration
    100, // list
    101, // aadlboolean
    102, // aadlinteger
    103, // aadlreal
    104, // aadlstring
    105, // property
    106, // true
    107, // false
    108, // not
    109, // and
    110, // or
    111, // refined
    112, // self
    113, // interface
    114, // file
    33, // no word: IDENT
];

// For each hash (`hash` in lib.rt) the row whose word has it, or 81, the row without letters, where no word has it. A hash is the sum of a
// word's length and of its first, last and middle letters without their case, each times a factor, modulo 256; the factors were searched
// for until no two of the eighty-one words had one hash. So a word is the one in its slot or none, and one comparison decides.
pub static SLOTS: [u8; 256] = [
    81, 81, 81, 81, 81, 81, 81, 81, 81, 81, 81, 81, 27, 30, 81, 81, 81, 81, 72, 21, 81, 28, 25, 81,
    81, 54, 7, 81, 81, 41, 37, 78, 81, 81, 81, 35, 81, 81, 60, 68, 81, 81, 81, 81, 67, 81, 81, 81,
    81, 81, 81, 81, 81, 74, 22, 46, 81, 81, 81, 81, 81, 63, 81, 81, 81, 81, 81, 48, 81, 81, 81, 24,
    81, 81, 81, 64, 81, 3, 6, 14, 81, 81, 8, 81, 81, 69, 81, 39, 81, 59, 81, 81, 81, 81, 81, 81,
    81, 81, 12, 81, 81, 81, 81, 81, 81, 81, 44, 81, 81, 81, 81, 81, 81, 81, 81, 66, 81, 17, 81, 81,
    81, 81, 81, 81, 34, 18, 70, 81, 81, 81, 81, 31, 81, 76, 15, 20, 23, 81, 81, 81, 81, 9, 81, 11,
    10, 81, 81, 81, 42, 61, 81, 55, 81, 81, 81, 81, 81, 40, 51, 81, 81, 75, 81, 81, 81, 81, 81, 81,
    81, 81, 71, 81, 45, 81, 62, 81, 81, 81, 13, 81, 81, 53, 33, 81, 81, 81, 81, 81, 81, 16, 81, 81,
    43, 58, 81, 81, 81, 81, 81, 81, 47, 81, 81, 77, 81, 81, 81, 38, 57, 81, 81, 65, 0, 81, 81, 81,
    81, 5, 50, 1, 81, 49, 81, 81, 81, 26, 32, 19, 81, 81, 81, 2, 52, 81, 81, 81, 81, 56, 81, 80,
    36, 81, 79, 81, 81, 81, 81, 73, 29, 81, 81, 81, 81, 4, 81, 81,
];
