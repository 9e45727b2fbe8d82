// Goals, clauses and the query.
ghost use Rattle.std.specs.Prelude.{◌≡◌, ◌+◌, ◌<◌, [], length};
ghost use Rattle.meaning.specs.Kinds.{level_limit};
ghost use Rattle.meaning.specs.Reading as definition;
ghost use Rattle.reading.specs.Arities.{functions_of, over};
ghost use Rattle.reading.specs.Steps.{step, in_range};
ghost use Rattle.reading.specs.Steps as steps;

use crate::names::{Names, Scope};
use crate::step::{Reached, byte, next, stands};
use crate::term::each;
use meaning::{Fault, Refusal};
use records::{CLAUSE_LIMIT, GOAL_LIMIT, Kind, LEVEL_LIMIT, VARIABLE_LIMIT};

impl Scope<'_> {
    // The arguments of a head or goal.
    // Kept apart from `goal`, where a cut would else make room for what their reading gives back: a row of cuts then takes a third more time.
    fn arguments(&self, n: usize, from: Reached) -> Result<Reached, Refusal>
        ensures { result
            ≡ step (definition.terms (definition.term self.now.names.now.file.now (functions_of self.now.names.now.file.now self.now.names.now.functions) self.now.declared level_limit) n from.seen from.at) }
    {
        self.terms(LEVEL_LIMIT, n, from)
    }

    // A goal: a predicate with its arguments, or a cut.
    fn goal(&self, from: Reached) -> Result<Reached, Refusal>
        ensures { result
            ≡ step (over definition.goal self.now.names.now.file.now self.now.names.now.functions self.now.names.now.predicates self.now.declared from.seen from.at) }
    {
        let at = from.at;
        let after = next(self.names.file, Kind::Goal, Kind::Cut, from)?;
        if stands(self.names.file, Kind::Cut, at) {
            return Ok(after);
        }
        let arity = self.names.predicate_arity(at).ok_or(Fault::Number.at(at))?;
        self.arguments(arity, after)
    }

    fn goals(&self, n: usize, from: Reached) -> Result<Reached, Refusal>
        ensures { result
            ≡ step (definition.goals (over definition.goal self.now.names.now.file.now self.now.names.now.functions self.now.names.now.predicates self.now.declared) n from.seen from.at) }
    {
        each(n, from, |here| self.goal(here))
    }

    // The goals of the clause or query whose record stands at p. Then all its variables have appeared (7).
    fn body(&self, n: usize, p: usize, from: Reached) -> Result<Reached, Refusal>
        ensures { result
            ≡ step (over steps.body self.now.names.now.file.now self.now.names.now.functions self.now.names.now.predicates self.now.declared n p from.seen from.at) }
    {
        let reached = self.goals(n, from)?;
        if reached.seen != self.declared {
            return Err(Fault::Variable.at(p));
        }
        Ok(reached)
    }
}

// "0 to 64 variables and 0 to 16 goals in a clause or query."
#[tactic(auto, unfolding(crate::specs::Steps::in_range))]
fn in_range(variables: usize, n: usize) -> bool
    ensures { result ≡ in_range variables n }
{
    variables <= VARIABLE_LIMIT && n <= GOAL_LIMIT
}

impl Names<'_> {
    // The clause whose record stands at p: its numbers (6), head arguments, goals.
    fn numbered(&self, p: usize, at: usize) -> Result<Reached, Refusal>
        requires { p + 4 < length self.now.file.now }
        ensures { result ≡ step (over steps.numbered self.now.file.now self.now.functions self.now.predicates p 0 at) }
    {
        let declared = byte(self.file, p + 3);
        let n = byte(self.file, p + 4);
        if !in_range(declared, n) {
            return Err(Fault::Number.at(p));
        }
        let arity = self.predicate_arity(p).ok_or(Fault::Number.at(p))?;
        let scope = Scope {
            names: self,
            declared,
        };
        let head = scope.arguments(arity, Reached { seen: 0, at })?;
        scope.body(n, p, head)
    }

    // A clause, after so many: "one record too many of a kind" (6).
    pub fn clause(&self, before: usize, at: usize) -> Result<Reached, Refusal>
        ensures { result ≡ step (over steps.clause_after self.now.file.now self.now.functions self.now.predicates before 0 at) }
    {
        let after = next(
            self.file,
            Kind::Clause,
            Kind::Clause,
            Reached { seen: 0, at },
        )?;
        let too_many = CLAUSE_LIMIT <= before;
        if too_many {
            return Err(Fault::Number.at(at));
        }
        self.numbered(at, after.at)
    }

    // The query whose record stands at p: its numbers (6), its goals.
    fn asked(&self, p: usize, at: usize) -> Result<Reached, Refusal>
        requires { p + 2 < length self.now.file.now }
        ensures { result ≡ step (over steps.asked self.now.file.now self.now.functions self.now.predicates [] p 0 at) }
    {
        let declared = byte(self.file, p + 1);
        let n = byte(self.file, p + 2);
        if !in_range(declared, n) {
            return Err(Fault::Number.at(p));
        }
        let scope = Scope {
            names: self,
            declared,
        };
        scope.body(n, p, Reached { seen: 0, at })
    }

    // The query, where only it may stand, and the end of the file.
    pub fn query(&self, at: usize) -> Result<Reached, Refusal>
        ensures { result ≡ step (over steps.last self.now.file.now self.now.functions self.now.predicates [] 0 at) }
    {
        let after = next(self.file, Kind::Query, Kind::Query, Reached { seen: 0, at })?;
        let asked = self.asked(at, after.at)?;
        ending(self.file, asked)
    }
}

// The end record, and nothing after it (9).
// Kept out of line, being met once a file: inlined, it moves the loop over terms to where a row of variables takes half as much time again.
#[inline(never)]
fn ending(file: &[u8], from: Reached) -> Result<Reached, Refusal>
    ensures { result ≡ step (steps.ending file.now from.seen from.at) }
{
    let after = next(file, Kind::End, Kind::End, from)?;
    if after.at != file.len() {
        return Err(Fault::AfterEnd.at(after.at));
    }
    Ok(after)
}
