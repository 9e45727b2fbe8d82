// The kinds of records with their body lengths, the limits of a rule file, and numbers of two bytes.
#![tactic(auto)]

ghost use Rattle.std.specs.Prelude.{◌≡◌, ◌+◌, ◌≤◌, ◌<◌, length};
ghost use Rattle.meaning.specs.Kinds.{body_length};
ghost use Rattle.meaning.specs.Reading.{two_bytes};
ghost use Rattle.records.specs.Numbers.{number};

// The kinds, each with its number.
#[derive(Clone, Copy, PartialEq, Eq)]
pub enum Kind {
    Function = 0x01,
    Predicate = 0x02,
    Clause = 0x03,
    Variable = 0x04,
    Application = 0x05,
    Goal = 0x06,
    Cut = 0x07,
    Query = 0x08,
    End = 0x09,
    Answer = 0x0A,
    AnswerVariable = 0x0B,
    Step = 0x0C,
    AnswerEnd = 0x0D,
}

impl From<Kind> for u8 {
    ghost from_gives = { λ kind n. n ≡ number kind };

    #[tactic(auto, using(crate::proofs::Laws::kind_tag))]
    fn from(kind: Kind) -> u8 {
        kind as u8
    }
}

// The limits: bytes of a file; functions; predicates; clauses; arguments of a function or predicate; variables of a clause or query;
// goals of a clause or query; levels of a term.
pub const FILE_LIMIT: usize = 60000;

pub const FUNCTION_LIMIT: usize = 1024;

pub const PREDICATE_LIMIT: usize = 1024;

pub const CLAUSE_LIMIT: usize = 8192;

pub const ARITY_LIMIT: usize = 8;

pub const VARIABLE_LIMIT: usize = 64;

pub const GOAL_LIMIT: usize = 16;

pub const LEVEL_LIMIT: usize = 32;

// "A table of kinds gives each body length": from 0 on, which is no kind.
pub const BODY_LENGTHS: [u8; 14] = [0, 1, 1, 4, 1, 2, 2, 0, 2, 0, 4, 2, 2, 0];

// The body bytes of a kind; none where the byte is no kind.
pub fn body_length(kind: u8) -> usize
    ensures body { result ≡ body_length kind }
    ensures small { result ≤ 4 }
{
    let k = usize::from(kind);
    if k < BODY_LENGTHS.len() {
        usize::from(BODY_LENGTHS[k])
    } else {
        0
    }
}

// The two-byte number at a place of the file, the high byte first.
// Kept beside words::number_after, which asks nothing of a place and so tests it: laying a file took a fifth more time with that one, and a
// check of it up to 65 in a hundred.
#[tactic(auto, unfolding(meaning::specs::Reading::two_bytes, meaning::specs::Reading::byte))]
pub fn two_bytes(file: &[u8], at: usize) -> usize
    requires { at + 1 < length file.now }
    ensures is { result ≡ two_bytes file.now at }
    ensures small { result < 65536 }
{
    usize::from(u16::from_be_bytes([file[at], file[at + 1]]))
}
