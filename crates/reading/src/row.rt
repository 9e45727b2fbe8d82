// Rows of records of one kind: the functions, the predicates, the clauses.
ghost use Rattle.std.specs.Prelude.{◌≡◌, ◌<◌, Ok};
ghost use Rattle.meaning.specs.Kinds.{a_clause, body_length};
ghost use Rattle.reading.specs.Each.{RowOf};
ghost use Rattle.reading.specs.SoFar.{SoFar, Counted, Rowed};
ghost use Rattle.reading.specs.Steps.{step};
ghost use Rattle.records.specs.Numbers.{number};
ghost use Rattle.reading.specs.Steps as steps;
ghost use Rattle.reading.specs.declared.step.Reached.{Reached};

use crate::names::Names;
use crate::step::{Reached, byte, next, stands};
use meaning::{Fault, Refusal};
use records::{ARITY_LIMIT, Kind};

// So many records of one kind, and the place after them.
#[derive(Clone, Copy, PartialEq, Eq)]
pub struct Row {
    pub records: usize,
    pub at: usize,
}

// The records of one kind from a place on, each read after those before it.
fn read_row<F: Fn(Row) -> Result<Reached, Refusal>>(
    file: &[u8],
    kind: Kind,
    start: usize,
    one: F,
) -> Result<Row, Refusal>
    requires callable { F.IsAlwaysCallable one }
    requires onward { (before : Row) (t : Reached) → F.post one before (Ok t) → before.at < t.at }
    ensures { RowOf (F.post one) file.now (number kind) (record { records = 0; at = start }) result }
{
    let mut records = 0;
    let mut at = start;
    // Kept: how many there are is known only at the end, so a `for` over a range would need an end that is never reached, and a break.
    while stands(file, kind, at) {
        at = one(Row { records, at })?.at;
        records += 1;
    }
    Ok(Row { records, at })
}

// A function or a predicate, after so many: its arity, and one record too many of a kind (6).
fn declared(file: &[u8], kind: Kind, limit: usize, before: Row) -> Result<Reached, Refusal>
    requires { body_length (number kind) ≡ 1 }
    ensures { result ≡ step (steps.declared file.now (number kind) limit before.records 0 before.at) }
{
    let at = before.at;
    let after = next(file, kind, kind, Reached { seen: 0, at })?;
    if limit <= before.records || ARITY_LIMIT < byte(file, at + 1) {
        return Err(Fault::Number.at(at));
    }
    Ok(after)
}

// The functions, or the predicates after so many functions.
pub fn arities(file: &[u8], kind: Kind, limit: usize, functions: Row) -> Result<Row, Refusal>
    requires { Counted file.now (number kind) limit functions.records 0 functions.at }
    ensures { Rowed file.now (number kind) (Counted file.now (number kind) limit functions.records) result }
{
    read_row(file, kind, functions.at, |before| {
        declared(file, kind, limit, before)
    })
}

impl Names<'_> {
    // The clauses, which stand behind the functions and predicates.
    pub fn clauses(&self, start: usize) -> Result<Row, Refusal>
        requires { SoFar self.now.file.now a_clause self.now.functions self.now.predicates 0 start }
        ensures { Rowed self.now.file.now a_clause (SoFar self.now.file.now a_clause self.now.functions self.now.predicates) result }
    {
        read_row(self.file, Kind::Clause, start, |before| {
            self.clause(before.records, before.at)
        })
    }
}
