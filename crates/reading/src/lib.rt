// Any bytes are checked as a rule file: "the file is read forward and the first fault counts". Nothing is written.
#![tactic(auto)]

mod clause;
mod names;
mod row;
mod step;
mod term;

ghost use Rattle.std.specs.Prelude.{◌≡◌};
ghost use Rattle.meaning.specs.Reading.{parse};
ghost use Rattle.reading.specs.Verdict.{Told, verdict};

use meaning::Refusal;
use names::Names;
use records::{FUNCTION_LIMIT, Kind, PREDICATE_LIMIT};
use row::{Row, arities};

// How many functions, predicates and clauses a good file has.
#[derive(Clone, Copy, PartialEq, Eq)]
pub struct Counts {
    pub functions: u32,
    pub predicates: u32,
    pub clauses: u32,
}

// "Order: functions, predicates, clauses, exactly one query, end."
pub fn check(file: &[u8]) -> Result<Counts, Refusal>
    ensures verdict { result ≡ verdict (parse file.now) }
    ensures told { Told (parse file.now) result }
{
    let none = Row { records: 0, at: 0 };
    let functions = arities(file, Kind::Function, FUNCTION_LIMIT, none)?;
    let predicates = arities(file, Kind::Predicate, PREDICATE_LIMIT, functions)?;
    let names = Names {
        functions: functions.records,
        predicates: predicates.records,
        file,
    };
    let clauses = names.clauses(predicates.at)?;
    names.query(clauses.at)?;
    Ok(Counts {
        functions: functions.records as u32,
        predicates: predicates.records as u32,
        clauses: clauses.records as u32,
    })
}
