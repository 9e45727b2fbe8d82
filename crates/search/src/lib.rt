// The search: steps, choices, goals and the moves. What a move leads to is the next that is due.
#![tactic(auto)]

ghost use Rattle.std.specs.Prelude.{◌≡◌};
ghost use Rattle.search.specs.Search.{step_word, word_number, settled_next, clause_place_word, clause_next_word, clause_numbered, below_of, step_next, rest_word, retried, Backs, trial_of, first_word, GoesOn, step_put, room_of, arity_at, paired, entered_regs, Enters, kept_of, MovesCut, Starts};

use cells::{Held, Layout, after, clear, place_word, undo};
use matching::{behind, push_pairs};
use meaning::{CellNumber, ClauseNumber, End, Place};
use records::Kind;
use words::{add, byte_after, byte_at, get, number_after, on, put_four};

// The run limits.
#[derive(Clone, Copy)]
pub struct Limits {
    pub cells: u32,
    pub steps: u32,
    pub work: u32,
}

// What a run is given beside the file: the layout of scratch, the run limits, how many functions there are, and the query's place.
#[derive(Clone, Copy)]
pub struct Given {
    pub lay: Layout,
    pub limits: Limits,
    pub functions: u32,
    pub query: Place,
}

// Where the goals go on: a place, and the step whose clause it belongs to, from 1; 0 is the query.
// Kept: the step is a number, as it stands in scratch and as the theorems of the crate simulation have it.
#[derive(Clone, Copy)]
pub struct Next {
    pub place: Place,
    pub step: u32,
}

// Where a run is: cells taken, bindings, steps, the latest choice (a step from 1; 0 is none), pairs to match, the first cell that no value
// and no goal side of a pair mentions, the open goals, units spent.
// Kept: the choice is a number, as the step of Next is.
#[derive(Clone, Copy)]
pub struct Regs {
    pub cells: u32,
    pub trail: u32,
    pub units: u32,
    pub steps: u32,
    pub choice: u32,
    pub work: u32,
    pub fresh: u32,
    pub next: Next,
}

// A goal and a clause to try for it: the goal's place, the cells of its variables, and the goals behind it.
#[derive(Clone, Copy)]
pub struct Trial {
    pub clause: ClauseNumber,
    pub goal: Place,
    pub caller: CellNumber,
    pub next: Next,
}

// What is due: a move, which costs a unit, an answer, or the end. A head is matched whole, so here no Pair is due between two heads.
// Kept: the definition's moves go pair by pair, and machine's Running.Moves, which its theorems name, says them of this type.
#[derive(Clone, Copy)]
pub enum Due {
    Try(Regs, Trial),
    Pair(Regs),
    Cut(Regs),
    Answer(Regs),
    Over(End, Regs),
}

// The words of a step, in this order: its clause; the goal, and where the cells of its variables begin; the goals behind it, a place and a
// step; and cells, bindings and choice as they were before it.
#[derive(Clone, Copy)]
enum StepWord {
    Clause,
    Goal,
    Caller,
    Place,
    Step,
    Cells,
    Trail,
    Choice,
}

// A clause as a word of scratch names it, from 1; 0 is none.
#[tactic(auto, unfolding(crate::specs::Search::clause_numbered))]
fn numbered(word: u32) -> Option<ClauseNumber>
    ensures { result ≡ clause_numbered word }
{
    word.checked_sub(1).map(ClauseNumber)
}

// A choice before another, else none, which is 0. In a run every choice is.
// Kept as a number, as Regs.choice is; so are Rest.prior, and what `kept` and `step_word` give.
#[tactic(auto, using(crate::proofs::Laws::choosing), unfolding(crate::specs::Search::below_of))]
fn below(a: u32, b: u32) -> u32
    ensures { result ≡ below_of a b }
{
    if a < b { a } else { 0 }
}

// The choice of a step: the choice before it, and the next clause to try.
#[derive(Clone, Copy)]
pub struct Rest {
    pub prior: u32,
    pub clause: Option<ClauseNumber>,
}

// Where the clause of a trial stands, and how many variables it has: there is room for it.
#[derive(Clone, Copy)]
pub struct Fits {
    pub place: Place,
    pub variables: u32,
}

// Scratch as it is read, and where its regions begin.
#[derive(Clone, Copy)]
struct Scratch<'a> {
    words: &'a [u32],
    lay: Layout,
}

impl Scratch<'_> {
    // A word of a step, the step being numbered from 1.
    #[tactic(auto, unfolding(crate::specs::Search::step_word))]
    fn step_word(self, step: u32, word: StepWord) -> u32
        ensures { result ≡ step_word self.entry.words.now self.entry.lay step (word_number word) }
    {
        if step == 0 {
            return 0;
        }
        get(
            self.words,
            (self.lay.steps as usize) + 8 * ((step - 1) as usize) + (word as usize),
        )
    }

    // The goals behind the goal of a step.
    #[tactic(auto, unfolding(crate::specs::Search::step_next))]
    fn next_of(self, step: u32) -> Next
        ensures { result ≡ step_next self.entry.words.now self.entry.lay step }
    {
        Next {
            place: Place(self.step_word(step, StepWord::Place) as usize),
            step: self.step_word(step, StepWord::Step),
        }
    }

    // Where the goals go on: at a place with no goal left, behind the goal of its step.
    #[tactic(auto, using(crate::proofs::Laws::choosing), unfolding(crate::specs::Search::settled_next, meaning::specs::Reading::goal_due))]
    fn settled(self, file: &[u8], n: Next) -> Next
        ensures { result ≡ settled_next file.now self.entry.words.now self.entry.lay n }
    {
        let kind = byte_at(file, n.place.0);
        if kind == Kind::Goal as u32 || kind == Kind::Cut as u32 || n.step == 0 {
            return n;
        }
        self.next_of(n.step)
    }

    // The place of a clause.
    #[tactic(auto, unfolding(crate::specs::Search::clause_place_word))]
    fn clause_place(self, k: ClauseNumber) -> Place
        ensures { result ≡ clause_place_word self.entry.words.now self.entry.lay k }
    {
        Place(get(self.words, (self.lay.clauses as usize) + 2 * (k.0 as usize)) as usize)
    }

    // The next clause of its predicate.
    #[tactic(auto, unfolding(crate::specs::Search::clause_next_word))]
    fn clause_next(self, k: ClauseNumber) -> Option<ClauseNumber>
        ensures { result ≡ clause_numbered (clause_next_word self.entry.words.now self.entry.lay k.0) }
    {
        numbered(get(
            self.words,
            (self.lay.clauses as usize) + 2 * (k.0 as usize) + 1,
        ))
    }

    // The first clause of the goal at a place.
    #[tactic(auto, unfolding(crate::specs::Search::first_word))]
    fn first_clause(self, file: &[u8], p: Place) -> Option<ClauseNumber>
        ensures { result ≡ clause_numbered (first_word file.now self.entry.words.now self.entry.lay p) }
    {
        numbered(get(
            self.words,
            (self.lay.firsts as usize) + (number_after(file, p.0) as usize),
        ))
    }

    // What is left to try of the goal of a step, and behind it.
    #[tactic(auto, unfolding(crate::specs::Search::rest_word))]
    fn rest_of(self, c: u32) -> Rest
        ensures { result ≡ rest_word self.entry.words.now self.entry.lay c }
    {
        Rest {
            prior: below(self.step_word(c, StepWord::Choice), c),
            clause: self.clause_next(ClauseNumber(self.step_word(c, StepWord::Clause))),
        }
    }

    // The goal of the step c is tried again, with another clause, from registers as they were before it but for the cells.
    #[tactic(auto, unfolding(crate::specs::Search::retried))]
    fn retry(self, m: Regs, c: u32, k: ClauseNumber) -> Due
        ensures { result ≡ retried self.entry.words.now self.entry.lay m m.trail c m.steps m.choice k.0 }
    {
        let trial = Trial {
            clause: k,
            goal: Place(self.step_word(c, StepWord::Goal) as usize),
            caller: CellNumber(self.step_word(c, StepWord::Caller)),
            next: self.next_of(c),
        };
        let cells = self.step_word(c, StepWord::Cells);
        Due::Try(Regs { cells, ..m }, trial)
    }

    // A goal with the first of its clauses, and the goals behind it.
    #[tactic(auto, unfolding(crate::specs::Search::trial_of))]
    fn first_trial(self, file: &[u8], n: Next, k: ClauseNumber) -> Trial
        ensures { result ≡ trial_of file.now self.entry.words.now self.entry.lay n k.0 }
    {
        let rest = Next {
            place: after(self.words, n.place),
            ..n
        };
        Trial {
            clause: k,
            goal: n.place,
            caller: CellNumber(self.step_word(n.step, StepWord::Cells)),
            next: self.settled(file, rest),
        }
    }

    // Where the run is once a clause has been entered.
    #[tactic(auto, unfolding(crate::specs::Search::entered_regs))]
    fn entered(self, file: &[u8], m: Regs, fit: Fits, pairs: u32) -> Regs
        ensures { result ≡ entered_regs file.now self.entry.words.now self.entry.lay m fit.place fit.variables pairs }
    {
        let step = add(m.steps, 1);
        let body = Next {
            place: after(self.words, fit.place),
            step,
        };
        Regs {
            cells: add(m.cells, fit.variables),
            steps: step,
            choice: step,
            work: pairs,
            fresh: m.cells,
            next: self.settled(file, body),
            ..m
        }
    }

    // What a cut leaves: the choices before its own goal; one of the query leaves none.
    #[tactic(auto, unfolding(crate::specs::Search::kept_of))]
    fn kept(self, step: u32) -> u32
        ensures { result ≡ kept_of self.entry.words.now self.entry.lay step }
    {
        if step == 0 {
            0
        } else {
            self.step_word(step, StepWord::Choice)
        }
    }
}

// Failure goes back to the latest goal with untried clauses.
pub fn back(w: &mut [u32], lay: Layout, m: Regs) -> Due
    ensures { Backs lay m m.trail m.choice w.old result w.new }
{
    let mut trail = m.trail;
    let mut c = m.choice;
    // Kept: a step names the choice before it, so there is no range of steps to count through.
    while 0 < c {
        let mark = Scratch { words: w, lay }.step_word(c, StepWord::Trail);
        undo(w, lay, trail, mark);
        let undone = Scratch { words: w, lay };
        let rest = undone.rest_of(c);
        if let Some(k) = rest.clause {
            let before = Regs {
                trail: mark,
                steps: c - 1,
                choice: rest.prior,
                ..m
            };
            return undone.retry(before, c, k);
        }
        trail = mark;
        c = rest.prior;
    }
    Due::Over(
        End::NoMore,
        Regs {
            trail,
            choice: 0,
            ..m
        },
    )
}

// The first open goal is taken: a predicate goal is called.
#[tactic(auto, using(crate::proofs::Laws::going), unfolding(crate::specs::Search::first_word))]
pub fn go_on(file: &[u8], w: &mut [u32], lay: Layout, m: Regs) -> Due
    ensures { GoesOn file.now lay m w.old result w.new }
{
    let n = m.next;
    let kind = byte_at(file, n.place.0);
    if kind == Kind::Cut as u32 {
        return Due::Cut(m);
    }
    if kind != Kind::Goal as u32 {
        return Due::Answer(m);
    }
    let now = Scratch { words: w, lay };
    match now.first_clause(file, n.place) {
        Some(k) => Due::Try(m, now.first_trial(file, n, k)),
        None => back(w, lay, m),
    }
}

// The record of a step: its clause, the goal, the goals behind it, and how far the run was.
#[tactic(auto, unfolding(crate::specs::Search::step_put))]
fn put_step(w: &mut [u32], lay: Layout, t: Trial, m: Regs)
    ensures { w.new ≡ step_put lay t m w.old }
{
    let at = (lay.steps as usize) + 8 * (m.steps as usize);
    let goal = place_word(t.goal);
    let rest = place_word(t.next.place);
    put_four(w, at, t.clause.0, goal, t.caller.0, rest);
    put_four(w, at + 4, t.next.step, m.cells, m.trail, m.choice);
}

// Whether a clause that is tried has room; the run ends where it has none.
#[tactic(auto, using(crate::proofs::Laws::choosing), unfolding(crate::specs::Search::room_of))]
pub fn room_for(file: &[u8], w: &[u32], g: Given, k: ClauseNumber, m: Regs) -> Result<Fits, End>
    ensures { result ≡ room_of file.now w.now g k m }
{
    let now = Scratch {
        words: w,
        lay: g.lay,
    };
    let place = now.clause_place(k);
    let variables = byte_after(file, place.0, 3);
    if u64::from(g.limits.cells) < u64::from(m.cells) + u64::from(variables) {
        return Err(End::Cells);
    }
    if g.limits.steps <= m.steps {
        return Err(End::Steps);
    }
    Ok(Fits { place, variables })
}

// How many arguments the goal has.
#[tactic(auto, unfolding(crate::specs::Search::arity_at))]
fn arity_of(file: &[u8], functions: u32, goal: Place) -> u32
    ensures { result ≡ arity_at file.now functions goal }
{
    let q = number_after(file, goal.0);
    byte_at(file, 2 * (functions as usize) + 2 * (q as usize) + 1)
}

// The pairs of the goal's arguments and the head's, the clause standing at a place.
#[tactic(auto, unfolding(crate::specs::Search::paired))]
fn pair_up(w: &mut [u32], lay: Layout, n: u32, t: Trial, p: Place, base: CellNumber)
    ensures { w.new ≡ paired lay n t p base.0 w.old }
{
    let goal = Held {
        place: t.goal,
        base: t.caller,
    };
    let head = Held { place: p, base };
    push_pairs(w, lay, 0, n, behind(goal, 3), behind(head, 5));
}

// A clause that has room is entered: one step more, its fresh cells, its pairs.
#[tactic(auto, using(crate::specs::Search::enters), unfolding(crate::specs::Search::entered_words))]
pub fn enter(file: &[u8], w: &mut [u32], g: Given, t: Trial, m: Regs, fit: Fits) -> Regs
    ensures { Enters file.now g t m fit.place fit.variables w.old result w.new }
{
    put_step(w, g.lay, t, m);
    clear(w, g.lay, m.cells, fit.variables);
    let n = arity_of(file, g.functions, t.goal);
    pair_up(w, g.lay, n, t, fit.place, CellNumber(m.cells));
    let now = Scratch {
        words: w,
        lay: g.lay,
    };
    now.entered(file, m, fit, n)
}

// A cut, its unit being spent.
#[tactic(auto, using(crate::specs::Search::cuts), unfolding(crate::specs::Search::cut_regs))]
pub fn move_cut(file: &[u8], w: &mut [u32], lay: Layout, m: Regs) -> Due
    ensures { MovesCut file.now lay m w.old result w.new }
{
    let rest = Next {
        place: Place(on(m.next.place.0, 1)),
        ..m.next
    };
    let now = Scratch { words: w, lay };
    let choice = now.kept(m.next.step);
    let next = now.settled(file, rest);
    go_on(file, w, lay, Regs { choice, next, ..m })
}

// Before the first unit: the query's variables take their cells, and the first goal is taken.
#[tactic(auto, using(crate::proofs::Laws::starting), unfolding(crate::specs::Search::start_regs))]
pub fn start(file: &[u8], w: &mut [u32], g: Given, wanted: u32) -> Due
    ensures { Starts file.now g wanted w.old result w.new }
{
    let variables = byte_after(file, g.query.0, 1);
    let m = Regs {
        cells: variables,
        trail: 0,
        units: 0,
        steps: 0,
        choice: 0,
        work: 0,
        fresh: 0,
        next: Next {
            place: Place(on(g.query.0, 3)),
            step: 0,
        },
    };
    if wanted == 0 {
        return Due::Over(End::Wanted, m);
    }
    if g.limits.cells < variables {
        return Due::Over(End::Cells, m);
    }
    clear(w, g.lay, 0, variables);
    go_on(file, w, g.lay, m)
}
