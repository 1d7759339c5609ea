// Refusals: what every part of the library answers where a rule is broken.
#![tactic(auto)]

ghost use Rattle.std.specs.Prelude.{◌≡◌};
ghost use Rattle.refusals.specs.Refusals.{no_chunk, number_of, rule_of, chunk_number, refusal_of, refusal_at};

// The rules, in the order of the numbers of their refusals: docs/FORMAT.md has the row of each. `Other` is any further number, of a refusal that a caller makes.
#[derive(Clone, Copy)]
pub enum Rule {
    ShortFile,
    FileTags,
    WrongVersion,
    WrongSections,
    WrongLength,
    DirectoryTags,
    WrongDirectory,
    ChunkTag,
    ChunkFrame,
    BadEntry,
    QuickWords,
    NameOrder,
    BrokenChain,
    BrokenTree,
    BadName,
    ShortTrail,
    BadRecord,
    BadInput,
    TooManyChunks,
    ShortOutput,
    BadBatch,
    LongInput,
    Other(u8),
}

// A rule that is broken, and the chunk that breaks it where it is one of a chunk.
#[derive(Clone, Copy)]
pub struct Refusal {
    pub rule: Rule,
    pub chunk: Option<u32>,
}

// The number that stands where no chunk is meant.
pub fn no_chunk() -> u32
    ensures { result ≡ no_chunk }
{
    0xFFFF_FFFF
}

impl Rule {
    // The number of its refusal.
    pub fn number(self) -> u8
        ensures { result ≡ number_of self }
    {
        match self {
            Rule::ShortFile => 1,
            Rule::FileTags => 2,
            Rule::WrongVersion => 3,
            Rule::WrongSections => 4,
            Rule::WrongLength => 5,
            Rule::DirectoryTags => 6,
            Rule::WrongDirectory => 7,
            Rule::ChunkTag => 8,
            Rule::ChunkFrame => 9,
            Rule::BadEntry => 10,
            Rule::QuickWords => 11,
            Rule::NameOrder => 12,
            Rule::BrokenChain => 13,
            Rule::BrokenTree => 14,
            Rule::BadName => 15,
            Rule::ShortTrail => 16,
            Rule::BadRecord => 17,
            Rule::BadInput => 18,
            Rule::TooManyChunks => 19,
            Rule::ShortOutput => 20,
            Rule::BadBatch => 22,
            Rule::LongInput => 29,
            Rule::Other(number) => number,
        }
    }
}

impl From<u8> for Rule {
    ghost from_gives = { λ number rule. (rule ≡ rule_of number) × (number_of rule ≡ number) };

    fn from(number: u8) -> Rule {
        match number {
            1 => Rule::ShortFile,
            2 => Rule::FileTags,
            3 => Rule::WrongVersion,
            4 => Rule::WrongSections,
            5 => Rule::WrongLength,
            6 => Rule::DirectoryTags,
            7 => Rule::WrongDirectory,
            8 => Rule::ChunkTag,
            9 => Rule::ChunkFrame,
            10 => Rule::BadEntry,
            11 => Rule::QuickWords,
            12 => Rule::NameOrder,
            13 => Rule::BrokenChain,
            14 => Rule::BrokenTree,
            15 => Rule::BadName,
            16 => Rule::ShortTrail,
            17 => Rule::BadRecord,
            18 => Rule::BadInput,
            19 => Rule::TooManyChunks,
            20 => Rule::ShortOutput,
            22 => Rule::BadBatch,
            29 => Rule::LongInput,
            _ => Rule::Other(number),
        }
    }
}

impl Refusal {
    // The number of the rule.
    pub fn number(self) -> u8
        ensures { result ≡ number_of self.rule }
    {
        self.rule.number()
    }

    // The number of the chunk, or the one that stands for none.
    pub fn chunk_number(self) -> u32
        ensures { result ≡ chunk_number self }
    {
        self.chunk.unwrap_or(no_chunk())
    }
}

// A refusal that belongs to no chunk.
pub fn refuse(rule: Rule) -> Refusal
    ensures { result ≡ refusal_of rule }
{
    Refusal { rule, chunk: None }
}

impl From<Rule> for Refusal {
    ghost from_gives = { λ rule r. r ≡ refusal_of rule };

    fn from(rule: Rule) -> Refusal {
        refuse(rule)
    }
}

// A refusal of a chunk.
pub fn refuse_at(rule: Rule, chunk: u32) -> Refusal
    ensures { result ≡ refusal_at rule chunk }
{
    Refusal {
        rule,
        chunk: Some(chunk),
    }
}
