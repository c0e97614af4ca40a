// The refusal of every call: five numbers, and the names of the first two.
ghost use Rattle.std.specs.Prelude.{◌≡◌};
ghost use Rattle.base.specs.Refusal.{refusal, of_entity, numbers_of};

#[derive(Clone, Copy)]
pub struct Refusal {
    pub number: usize,
    pub reason: usize,
    // of the text in the bundle; the place of an entity in its stream
    pub text: usize,
    pub line: usize,
    pub character: usize,
}

// numbers, from the input
pub const BUNDLE_LAYOUT: usize = 1;

pub const NOT_UTF8: usize = 2;

pub const LEXER: usize = 3;

pub const PARSE: usize = 4;

pub const NO_SUCH_TEXT: usize = 5;

pub const NOT_WHOLE: usize = 6;

pub const ENTITY_LAYOUT: usize = 7;

pub const TAG_NUMBER: usize = 8;

pub const NAN_Z_INDEX: usize = 9;
// numbers, from the state
pub const TABLE_FULL: usize = 20;

pub const TOO_DEEP: usize = 21;

pub const TABLE_BROKEN: usize = 22;

pub const TOO_MANY_LAYERS: usize = 23;

pub const TOO_MANY_NAMES: usize = 24;

pub const DRAW_LIST_FULL: usize = 25;

// reasons of LEXER
pub const AFTER_MINUS: usize = 1;

pub const SYMBOL: usize = 2;

pub const AFTER_AT: usize = 3;

pub const IMPORT_STRING: usize = 4;

pub const OPEN_STRING: usize = 5;

pub const NOTHING_AFTER_SIGN: usize = 6;

pub const NO_NUMBER_AFTER_SIGN: usize = 7;

pub const NO_FRACTION: usize = 8;

pub const COLOR: usize = 9;

pub const Z_WANTED: usize = 10;

pub const EMPTY_ZOOM_RANGE: usize = 11;

pub const OPEN_COMMENT: usize = 12;
// reasons of PARSE
pub const END_OF_FILE: usize = 1;

pub const OBJECT_TYPE: usize = 2;

pub const UNEXPECTED_TOKEN: usize = 3;

pub const ANOTHER_TOKEN: usize = 4;

pub const COLOR_REFERENCE: usize = 5;

pub const EVAL_FORM: usize = 6;
// reasons of TABLE_FULL
pub const RULES: usize = 1;

pub const SELECTORS: usize = 2;

pub const TESTS: usize = 3;

pub const PROPERTIES: usize = 4;

pub const NUMBERS: usize = 5;

pub const COLORS: usize = 6;

impl Refusal {
    // A refusal that says no more than its number.
    pub fn plain(number: usize) -> Refusal
        ensures { result ≡ refusal number 0 0 0 0 }
    {
        Refusal {
            number,
            reason: 0,
            text: 0,
            line: 0,
            character: 0,
        }
    }

    // The refusal of the entity at a place of a stream: 1 stands second for the stream of multipolygons.
    pub fn of_entity(number: usize, multipolygon: bool, place: usize) -> Refusal
        ensures { result ≡ of_entity number multipolygon place }
    {
        Refusal {
            number,
            reason: usize::from(multipolygon),
            text: place,
            line: 0,
            character: 0,
        }
    }

    // The five numbers, in their order.
    pub fn numbers(self) -> [u64; 5]
        ensures { result ≡ numbers_of self }
    {
        [
            self.number as u64,
            self.reason as u64,
            self.text as u64,
            self.line as u64,
            self.character as u64,
        ]
    }
}
