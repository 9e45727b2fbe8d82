// Terms. "Terms nest to at most 32 levels, an argument itself being level 1."
ghost use Rattle.std.specs.Prelude.{◌≡◌, ◌+◌, ◌<◌, length};
ghost use Rattle.meaning.specs.Reading as definition;
ghost use Rattle.reading.specs.Arities.{functions_of};
ghost use Rattle.reading.specs.Each.{Each};
ghost use Rattle.reading.specs.Steps.{step};

use crate::names::Scope;
use crate::step::{Reached, byte, next, stands};
use meaning::{Fault, Refusal};
use records::Kind;

// So many, one after another.
pub fn each<F: Fn(Reached) -> Result<Reached, Refusal>>(
    n: usize,
    from: Reached,
    one: F,
) -> Result<Reached, Refusal>
    requires { F.IsAlwaysCallable one }
    ensures { Each (F.post one) n from result }
{
    let mut here = from;
    for _ in 0..n {
        here = one(here)?;
    }
    Ok(here)
}

impl Scope<'_> {
    // The variable whose record stands at p: declared, and no further than the next to appear (7).
    fn variable(&self, p: usize, from: Reached) -> Result<Reached, Refusal>
        requires { p + 1 < length self.now.names.now.file.now }
        ensures { result ≡ step (definition.variable self.now.names.now.file.now self.now.declared p from.seen from.at) }
    {
        let x = byte(self.names.file, p + 1);
        if self.declared <= x || from.seen < x {
            return Err(Fault::Variable.at(p));
        }
        if x == from.seen {
            return Ok(Reached {
                seen: x + 1,
                ..from
            });
        }
        Ok(from)
    }

    // A term, where so many levels are left. "A term at level 33" (8) is found before its numbers are looked at.
    #[cycle(term_terms)]
    fn term(&self, levels: usize, from: Reached) -> Result<Reached, Refusal>
        ensures { result
            ≡ step (definition.term self.now.names.now.file.now (functions_of self.now.names.now.file.now self.now.names.now.functions) self.now.declared levels from.seen from.at) }
    {
        let at = from.at;
        let after = next(self.names.file, Kind::Variable, Kind::Application, from)?;
        let deeper = levels.checked_sub(1).ok_or(Fault::Level.at(at))?;
        if stands(self.names.file, Kind::Variable, at) {
            return self.variable(at, after);
        }
        let arity = self.names.function_arity(at).ok_or(Fault::Number.at(at))?;
        self.terms(deeper, arity, after)
    }

    // So many terms: the arguments of a head, a goal or a function.
    #[cycle(term_terms)]
    pub fn terms(&self, levels: usize, n: usize, from: Reached) -> Result<Reached, Refusal>
        ensures { result
            ≡ step (definition.terms (definition.term self.now.names.now.file.now (functions_of self.now.names.now.file.now self.now.names.now.functions) self.now.declared levels) n from.seen from.at) }
    {
        each(
            n,
            from,
            |here|
                ensures { result
                    ≡ step (definition.term self.entry.now.names.now.file.now (functions_of self.entry.now.names.now.file.now self.entry.now.names.now.functions) self.entry.now.declared levels here.seen here.at) }
            { self.term(levels, here) },
        )
    }
}
