// The answers of readers: what was read, or a refusal. specs/Told.antt gives 01's number and place for each case.
#![tactic(auto)]

ghost use Rattle.std.specs.Prelude.{◌≡◌};
ghost use Rattle.answers.specs.Refusals.{number_of, refusal};

use std::fmt;

// The rule that a file or a question breaks; its number is 01's, and 02's.
#[derive(Clone, Copy, Debug, PartialEq, Eq)]
pub enum Rule {
    PastEnd = 1,
    NotXnb = 2,
    Platform = 3,
    FormatVersion = 4,
    Compressed = 5,
    Flags = 6,
    FileLength = 7,
    BrokenNumber = 8,
    TooLarge = 9,
    NameHead = 11,
    ReaderVersion = 12,
    NoReader = 13,
    NotDeclared = 14,
    BadValue = 15,
    NoResource = 16,
    ResourceType = 17,
    TooDeep = 18,
    NoRowLeft = 19,
    LeftOver = 20,
    OutputTooSmall = 21,
    FontRule = 22,
    NoSuchRow = 23,
    OtherKind = 24,
    NoTableRoom = 31,
    EnumEntry = 32,
    EmptyHead = 33,
    HeadByte = 34,
    ArgumentDigit = 35,
    ArgumentBrackets = 36,
    TailByte = 37,
    NestedTooDeep = 38,
    NotWindows = 41,
    NotShortest = 42,
    UnusedReader = 43,
    EqualReaders = 44,
    RepeatedKey = 45,
    NotPage = 46,
    NoNextPage = 47,
    MissingMark = 51,
    ListTooShort = 52,
    NotTextArray = 61,
    NullText = 62,
    NotInXml = 63,
    NotExported = 64,
    FigureTooLarge = 71,
    NoRowRoom = 72,
}

impl Rule {
    // The number of the rule.
    pub fn number(self) -> u32
        ensures { result ≡ number_of self }
    {
        self as u32
    }

    // The refusal of this rule at a place.
    pub fn at(self, place: usize) -> Refusal
        ensures { result ≡ refusal (number_of self) place }
    {
        Refusal {
            number: self as u32,
            place,
        }
    }
}

// A refusal: the number of a rule, and its place.
#[derive(Clone, Copy, Debug, PartialEq, Eq)]
pub struct Refusal {
    pub number: u32,
    pub place: usize,
}

// 01: "A refusal prints one line, as `refused 7 at 6`".
impl fmt::Display for Refusal {
    fn fmt<W: fmt::Write>(&self, f: &mut fmt::Formatter<W>) -> fmt::Result {
        write!(f, "refused {} at {}", self.number, self.place)
    }
}

impl std::error::Error for Refusal {}

// A value that was read, and the next place.
#[derive(Clone, Copy, Debug, PartialEq, Eq)]
pub struct Read {
    pub value: u64,
    pub next: usize,
}

// What reading a number answers.
pub type Number = Result<Read, Refusal>;
