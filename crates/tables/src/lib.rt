// Lays out the tables of a run in scratch, once the file has been found good: for each term and goal the place after it, for each
// predicate its clauses in number order.
#![tactic(auto)]

ghost use Rattle.std.specs.Prelude.{◌≡◌, ◌+◌, ◌<◌, ◌≤◌, length};
ghost use Rattle.tables.specs.Laid.{clear, links};
ghost use Rattle.tables.specs.Here.{CanTerm, HasTerm, CanTerms, HasTerms, CanArguments, HasArguments, CanGoal, HasGoal, CanGoals, HasGoals, CanClause, HasClause, CanClauses, HasClauses, CanLink, CanLay, HasLaid};

use meaning::Place;
use records::{Kind, LEVEL_LIMIT, two_bytes};

// The words for the places of the file stand behind this many words of registers and spare.
const PLACES: usize = 64;

// ---- for each term and goal the place after it, and for each clause its place
// The term at p, where so many levels are left. Returns the place after it, as the others below do for what they lay.
#[cycle(terms)]
fn lay_term(file: &[u8], w: &mut [u32], p: usize, levels: usize) -> usize
    requires { CanTerm file.now w.old p levels }
    ensures { HasTerm file.now w.old p levels result w.new }
{
    if file[p] == Kind::Variable as u8 {
        w[PLACES + p] = (p + 2) as u32;
        return p + 2;
    }
    lay_arguments(file, w, 0, p, p + 3, levels - 1)
}

// So many terms, from p on.
#[cycle(terms)]
fn lay_terms(file: &[u8], w: &mut [u32], p: usize, n: u8, levels: usize) -> usize
    requires { CanTerms file.now w.old p n levels }
    ensures { HasTerms file.now w.old p n levels result w.new }
{
    let mut at = p;
    for _ in 0..n {
        at = lay_term(file, w, at, levels);
    }
    at
}

// The arguments, from s on, of the record at p: an application, a goal or a clause. The arity of its function or predicate stands in the
// file, where arities of this kind stand from `base` on.
#[cycle(terms)]
fn lay_arguments(
    file: &[u8],
    w: &mut [u32],
    base: usize,
    p: usize,
    s: usize,
    levels: usize,
) -> usize
    requires { CanArguments file.now w.old base p s levels }
    ensures { HasArguments file.now w.old base p s levels result w.new }
{
    let f = two_bytes(file, p + 1);
    let n = file[base + 2 * f + 1];
    let end = lay_terms(file, w, s, n, levels);
    w[PLACES + p] = end as u32;
    end
}

// A good rule file, and the place where its predicates begin: behind the functions.
#[derive(Clone, Copy)]
struct Rules<'a> {
    file: &'a [u8],
    predicates: usize,
}

impl Rules<'_> {
    // The goal at p. A cut has no arguments.
    fn lay_goal(self, w: &mut [u32], p: usize) -> usize
        requires { CanGoal self.file.now w.old self.predicates p }
        ensures { HasGoal self.entry.file.now w.old self.entry.predicates p result w.new }
    {
        if self.file[p] == Kind::Cut as u8 {
            return p + 1;
        }
        lay_arguments(self.file, w, self.predicates, p, p + 3, LEVEL_LIMIT)
    }

    // So many goals, from p on.
    // Kept beside lay_terms: what may be laid next depends on the words laid so far, which the clause of a closure would have to carry.
    fn lay_goals(self, w: &mut [u32], p: usize, n: u8) -> usize
        requires { CanGoals self.file.now w.old self.predicates p n }
        ensures { HasGoals self.entry.file.now w.old self.entry.predicates p n result w.new }
    {
        let mut at = p;
        for _ in 0..n {
            at = self.lay_goal(w, at);
        }
        at
    }

    // The clause at p: the place after its head is that of its body.
    fn lay_clause(self, w: &mut [u32], p: usize) -> usize
        requires { CanClause self.file.now w.old self.predicates p }
        ensures { HasClause self.entry.file.now w.old self.entry.predicates p result w.new }
    {
        let body = lay_arguments(self.file, w, self.predicates, p, p + 5, LEVEL_LIMIT);
        self.lay_goals(w, body, self.file[p + 4])
    }

    // So many clauses, from p on, and for each its place. Until they are linked, the word for a clause's next one holds its predicate.
    fn lay_clauses(self, w: &mut [u32], p: usize, table: usize, n: usize) -> usize
        requires { CanClauses self.file.now w.old self.predicates p table n }
        ensures { HasClauses self.entry.file.now w.old self.entry.predicates p table n result w.new }
    {
        let mut at = p;
        for k in 0..n {
            w[table + 2 * k] = at as u32;
            w[table + 2 * k + 1] = two_bytes(self.file, at + 1) as u32;
            at = self.lay_clause(w, at);
        }
        at
    }
}

// ---- for each predicate its clauses
// So many predicates have no clause yet.
fn clear_predicates(w: &mut [u32], first: usize, n: usize)
    requires { first + n ≤ length w.old }
    ensures { w.new ≡ clear first n w.old }
{
    w[first..first + n].fill(0);
}

// Links the clauses below n, from the last to the first: each goes in front of the clauses of its predicate. Numbers count from 1, and 0
// is none.
// Kept: scratch holds words alone, and the chains that layout's Tables.Chain speaks of are such numbers.
fn link_clauses(w: &mut [u32], first: usize, table: usize, n: usize)
    requires { CanLink first table n w.old }
    ensures { w.new ≡ links first table n w.old }
{
    for k in (0..n).rev() {
        let q = w[table + 2 * k + 1] as usize;
        let next = w[first + q];
        w[table + 2 * k + 1] = next;
        w[first + q] = (k + 1) as u32;
    }
}

// Lays out the tables of a good file that says so many functions, predicates and clauses. Returns the place of the query.
pub fn lay(file: &[u8], w: &mut [u32], functions: u32, predicates: u32, clauses: u32) -> Place
    requires { CanLay file.now w.old functions predicates clauses }
    ensures { HasLaid file.now w.old result w.new }
{
    let rules = Rules {
        file,
        predicates: 2 * functions as usize,
    };
    let first = PLACES + file.len();
    let table = first + predicates as usize;
    clear_predicates(w, first, predicates as usize);
    let start = rules.predicates + 2 * predicates as usize;
    let query = rules.lay_clauses(w, start, table, clauses as usize);
    rules.lay_goals(w, query + 3, file[query + 2]);
    link_clauses(w, first, table, clauses as usize);
    Place(query)
}
