// The machine: a run from its start to its end, and the whole call around it.
#![tactic(auto)]

mod heads;
mod run;

ghost use Rattle.std.specs.Prelude.{◌≡◌, ◌≤◌, ◌&&◌, leb, length, replicate};
ghost use Rattle.meaning.specs.Call.{needed};
ghost use Rattle.machine.specs.Calling.{allowed, given_of, limits_of, Tested, Can, RunsGood, Called};

use cells::Layout;
use meaning::{Fault, Outcome, Place};
use reading::{Counts, check};
use records::FILE_LIMIT;
use run::Run;
use search::{Given, Limits};
use tables::lay;

// The most cells, steps and work that a run may have.
const MOST: u32 = 60000;

// Run limits: cells and steps 1 to 60,000; work 8 to 60,000.
#[tactic(auto, unfolding(meaning::specs::Call::in_range))]
fn in_limits(l: Limits) -> bool
    ensures { result ≡ allowed l }
{
    (1..=MOST).contains(&l.cells) && (1..=MOST).contains(&l.steps) && (8..=MOST).contains(&l.work)
}

// The words of scratch that a run needs.
fn words_needed(length: usize, l: Limits) -> usize
    requires { length ≤ 60_000 }
    ensures { result ≡ needed length (limits_of l) }
{
    64 + 2 * length + 4 * (l.cells as usize) + 8 * (l.steps as usize) + 4 * (l.work as usize)
}

// The regions of scratch, and what else a run is given.
fn given(length: u32, l: Limits, functions: u32, predicates: u32, query: Place) -> Given
    requires length_len_bound { length ≤ 60_000 }
    requires predicates_bound { predicates ≤ 60_000 }
    requires cells_bound { l.cells ≤ 60_000 }
    requires steps_bound { l.steps ≤ 60_000 }
    ensures { result ≡ given_of length l functions predicates query }
{
    let firsts = 64 + length;
    let cells = 64 + 2 * length;
    let steps = cells + 4 * l.cells;
    let lay = Layout {
        firsts,
        clauses: firsts + predicates,
        cells,
        trail: cells + l.cells,
        marks: cells + 2 * l.cells,
        list: cells + 3 * l.cells,
        steps,
        work: steps + 8 * l.steps,
    };
    Given {
        lay,
        limits: l,
        functions,
        query,
    }
}

// What is asked: a file, the limits of its run, the budget, and how many answers are wanted.
#[derive(Clone, Copy)]
struct Asked<'a> {
    file: &'a [u8],
    limits: Limits,
    budget: u32,
    wanted: u32,
}

impl<'a> Asked<'a> {
    // The tables of a good file are laid out, and it is run.
    fn run_laid(self, c: Counts, w: &mut [u32], out: &mut [u8]) -> Outcome
        requires { Can self.file.now self.limits c w.old }
        ensures { RunsGood self.entry.file.now self.entry.limits self.entry.budget self.entry.wanted out.old result out.new }
    {
        let query = lay(self.file, w, c.functions, c.predicates, c.clauses);
        let g = given(
            self.file.len() as u32,
            self.limits,
            c.functions,
            c.predicates,
            query,
        );
        let run = Run {
            file: self.file,
            given: g,
            budget: self.budget,
            wanted: self.wanted,
        };
        run.whole(w, out)
    }

    // A good file is run in the words that are lent, which are zero then.
    fn run_in(self, c: Counts, w: &mut [u32], out: &mut [u8]) -> Outcome
        requires { Can self.file.now self.limits c w.old }
        ensures runs { RunsGood self.entry.file.now self.entry.limits self.entry.budget self.entry.wanted out.old result out.new }
        ensures wipes { w.new ≡ replicate (length w.old) 0 }
    {
        let r = self.run_laid(c, w, out);
        w.fill(0);
        r
    }

    // A good file is run in the words that it needs; the rest of scratch stays.
    fn run_read(self, c: Counts, w: &mut [u32], out: &mut [u8]) -> Outcome
        requires { Can self.file.now self.limits c w.old }
        ensures { Called self.entry.file.now self.entry.limits self.entry.budget self.entry.wanted w.old out.old result w.new out.new }
    {
        let count = words_needed(self.file.len(), self.limits);
        self.run_in(c, &mut w[..count], out)
    }

    // The file is read forward; a good one is run.
    #[tactic(auto, using(crate::proofs::CallLaws::read_refuses))]
    fn read_on(self, w: &mut [u32], out: &mut [u8]) -> Outcome
        requires { Tested self.file.now self.limits w.old }
        ensures { Called self.entry.file.now self.entry.limits self.entry.budget self.entry.wanted w.old out.old result w.new out.new }
    {
        let c = check(self.file)?;
        self.run_read(c, w, out)
    }
}

// The whole call: any bytes, limits and scratch.
pub fn call(
    file: &[u8],
    l: Limits,
    budget: u32,
    wanted: u32,
    w: &mut [u32],
    out: &mut [u8],
) -> Outcome
    ensures { Called file.now l budget wanted w.old out.old result w.new out.new }
{
    if !in_limits(l) {
        return Err(Fault::Limits.at(0));
    }
    if FILE_LIMIT < file.len() {
        return Err(Fault::Length.at(0));
    }
    if w.len() < words_needed(file.len(), l) {
        return Err(Fault::Scratch.at(0));
    }
    let asked = Asked {
        file,
        limits: l,
        budget,
        wanted,
    };
    asked.read_on(w, out)
}
