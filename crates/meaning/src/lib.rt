// The numbers and answers that code and definitions share. The definitions of document 01 are in specs/; the code that meets them is in
// other crates.
#![tactic(auto)]

ghost use Rattle.std.specs.Prelude.{◌≡◌};
ghost use Rattle.meaning.specs.Outcome.{fault_number, end_number};

// A clause number, a cell number and a file place are three kinds of number.
#[derive(Clone, Copy, PartialEq, Eq)]
pub struct ClauseNumber(pub u32);

#[derive(Clone, Copy, PartialEq, Eq)]
pub struct CellNumber(pub u32);

#[derive(Clone, Copy, PartialEq, Eq)]
pub struct Place(pub usize);

// Why a call or a file is refused, by document 01's numbers: a run limit out of range; a file too long; scratch too short; a kind or a body
// missing; a kind that is not due; a number out of range, or one record too many of a kind; a variable not declared, ahead of its first
// appearance or never appearing; a term at level 33; bytes after the end record.
#[derive(Clone, Copy, PartialEq, Eq)]
pub enum Fault {
    Limits = 1,
    Length,
    Scratch,
    Short,
    Kind,
    Number,
    Variable,
    Level,
    AfterEnd,
}

impl From<Fault> for u32 {
    ghost from_gives = { λ fault number. number ≡ fault_number fault };

    #[tactic(auto, using(crate::proofs::Laws::fault_tag))]
    fn from(fault: Fault) -> u32 {
        fault as u32
    }
}

// A refusal, by number and place.
#[derive(Clone, Copy, PartialEq, Eq)]
pub struct Refusal {
    pub fault: Fault,
    pub place: Place,
}

impl Fault {
    // The refusal for this fault at a place.
    pub fn at(self, place: usize) -> Refusal
        ensures fault { result.fault ≡ self }
        ensures place { result.place.0 ≡ place }
    {
        Refusal {
            fault: self,
            place: Place(place),
        }
    }
}

// How a run ended, by document 01's numbers.
#[derive(Clone, Copy, PartialEq, Eq)]
pub enum End {
    NoMore = 20,
    Wanted,
    Budget,
    Cells,
    Steps,
    Work,
    Output,
}

impl From<End> for u32 {
    ghost from_gives = { λ end number. number ≡ end_number end };

    #[tactic(auto, using(crate::proofs::Laws::end_tag))]
    fn from(end: End) -> u32 {
        end as u32
    }
}

// What a run comes to: answers and bytes written, units spent.
#[derive(Clone, Copy, PartialEq, Eq)]
pub struct Totals {
    pub answers: u32,
    pub units: u32,
    pub bytes: usize,
}

// A run that came to an end.
#[derive(Clone, Copy, PartialEq, Eq)]
pub struct Ended {
    pub end: End,
    pub totals: Totals,
}

// An end, or a refusal.
pub type Outcome = Result<Ended, Refusal>;
