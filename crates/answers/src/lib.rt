// Writing an answer: it is measured first, and written only where it fits.
#![tactic(auto, using(crate::proofs::Laws::writing))]

ghost use Rattle.std.specs.Prelude.{◌≡◌};
ghost use Rattle.records.specs.Numbers.{number};
ghost use Rattle.answers.specs.Written.{two_put, record_put, recorded, first_put, steps_put, last_put};
ghost use Rattle.answers.specs.Values.{forgotten, Number, appeared_of, due_put, due_at, arguments_put, FreeNode, FunctionNode, Node, NextNode, Nodes, value_of, Value, Values, none_yet};
ghost use Rattle.answers.specs.Answering.{Measures, Writes, Answers};

use cells::{Cell, Found, Held, Layout, after, follow, place_word, read_cell, read_held};
use meaning::{CellNumber, End, Place};
use records::{BODY_LENGTHS, Kind};
use words::{add, byte_at, get, on, put};

// The answer so far: its size, how many free variables have appeared, how many nodes of the value are due.
#[derive(Clone, Copy)]
pub struct Tally {
    pub size: usize,
    pub free: u32,
    pub due: u32,
}

// A pass that stopped: the end that stops it, and how far it was.
#[derive(Clone, Copy)]
pub struct Stopped {
    pub end: End,
    pub tally: Tally,
}

// The end of a pass that stopped, without how far it was.
impl From<Stopped> for End {
    ghost from_gives = { λ stopped end. end ≡ stopped.end };

    fn from(stopped: Stopped) -> End {
        stopped.end
    }
}

// The sizes of the records of an answer, its kind byte and its body: its first, an applied function, a free variable, a step, its last.
const FIRST: usize = 1 + BODY_LENGTHS[Kind::Answer as usize] as usize;

const APPLICATION: usize = 1 + BODY_LENGTHS[Kind::Application as usize] as usize;

const VARIABLE: usize = 1 + BODY_LENGTHS[Kind::AnswerVariable as usize] as usize;

const STEP: usize = 1 + BODY_LENGTHS[Kind::Step as usize] as usize;

const LAST: usize = 1 + BODY_LENGTHS[Kind::AnswerEnd as usize] as usize;

// A two-byte number, the high byte first.
#[tactic(auto, unfolding(crate::specs::Written::two_put))]
fn put_two(out: &mut [u8], i: usize, n: u32)
    ensures { out.new ≡ two_put i n out.old }
{
    let [_, _, high, low] = n.to_be_bytes();
    put(out, i, high);
    put(out, on(i, 1), low);
}

// A record with a two-byte number.
#[tactic(auto, unfolding(crate::specs::Written::record_put))]
fn put_record(out: &mut [u8], i: usize, kind: Kind, n: u32)
    ensures { out.new ≡ record_put i (number kind) n out.old }
{
    put(out, i, u8::from(kind));
    put_two(out, on(i, 1), n);
}

// No variable has appeared.
// Kept, and no `fill`, which would ask that all of them stand in the words.
fn forget(w: &mut [u32], lay: Layout, cells: u32)
    ensures { w.new ≡ forgotten cells lay w.old }
{
    for x in (0..cells).rev() {
        put(w, lay.list as usize + x as usize, 0);
    }
}

// The number of a free variable: that of its first appearance, or the next one.
fn number_of(w: &mut [u32], lay: Layout, x: CellNumber, free: u32) -> u32
    ensures { Number lay x.0 free w.old result w.new }
{
    let at = lay.list as usize + x.0 as usize;
    if let Some(known) = get(w, at).checked_sub(1) {
        return known;
    }
    put(w, at, add(free, 1));
    free
}

// How many variables have appeared, where so many had and now the one of this number does.
#[tactic(auto, using(crate::proofs::Laws::choosing), unfolding(crate::specs::Values::appeared_of))]
fn appeared(free: u32, number: u32) -> u32
    ensures { result ≡ appeared_of free number }
{
    if number < free { free } else { add(number, 1) }
}

// The term that is due at i.
// Kept, as put_due is, beside the list of pairs in matching: due_at and due_put have two words a term, pairs four, and theorems name both.
#[tactic(auto, using(crate::proofs::Laws::due_held))]
fn get_due(w: &[u32], lay: Layout, i: u32) -> Held
    ensures { result ≡ due_at w.now lay i }
{
    read_held(w, lay.work as usize + 2 * i as usize)
}

// A term is due at i: its place, and the cell that its variables are counted from.
#[tactic(auto, unfolding(crate::specs::Values::due_put, cells::specs::Cells::word_of_place))]
fn put_due(w: &mut [u32], lay: Layout, i: u32, p: Place, base: CellNumber)
    ensures { w.new ≡ due_put lay i p.0 base.0 w.old }
{
    let at = lay.work as usize + 2 * i as usize;
    put(w, at, place_word(p));
    put(w, at + 1, base.0);
}

// The arguments of an applied function are due, the first of them foremost.
#[tactic(auto, using(crate::proofs::Laws::writing), unfolding(cells::specs::Cells::place_after))]
fn put_arguments(w: &mut [u32], lay: Layout, due: u32, arity: u32, first: Place, base: CellNumber)
    ensures { w.new ≡ arguments_put arity due base.0 first.0 lay w.old }
{
    let mut p = first;
    for i in (0..arity).rev() {
        put_due(w, lay, add(due, i), p, base);
        p = after(w, p);
    }
}

// A derivation that answers the query: the file, where the regions of scratch begin, how many nodes may be due, how many variables the query
// has, how many cells and steps are taken, and how many hops a variable is followed.
#[derive(Clone, Copy)]
pub struct Derivation<'a> {
    pub file: &'a [u8],
    pub lay: Layout,
    pub limit: u32,
    pub variables: u32,
    pub cells: u32,
    pub steps: u32,
    pub hops: u32,
}

// A pass over the values of its answer writes them (WRITE), or only measures them.
impl Derivation<'_> {
    // A record of a kind with a two-byte number, where the pass writes.
    #[tactic(auto, using(crate::proofs::Laws::choosing), unfolding(crate::specs::Written::recorded))]
    fn put_record<const WRITE: bool>(&self, out: &mut [u8], i: usize, kind: Kind, n: u32)
        ensures { out.new ≡ recorded WRITE i (number kind) n out.old }
    {
        if WRITE {
            put_record(out, i, kind, n);
        }
    }

    // A node that is a free variable: the record of its number.
    fn free_node<const WRITE: bool>(
        &self,
        w: &mut [u32],
        out: &mut [u8],
        t: Tally,
        x: CellNumber,
    ) -> Result<Tally, Stopped>
        ensures { FreeNode self.now.lay WRITE t x.0 w.old out.old result w.new out.new }
    {
        if out.len().saturating_sub(t.size) < VARIABLE {
            return Err(Stopped {
                end: End::Output,
                tally: t,
            });
        }
        let n = number_of(w, self.lay, x, t.free);
        self.put_record::<WRITE>(out, t.size, Kind::AnswerVariable, n);
        Ok(Tally {
            size: t.size + VARIABLE,
            free: appeared(t.free, n),
            ..t
        })
    }

    // A node that is a function applied: its record, and its arguments are due.
    fn function_node<const WRITE: bool>(
        &self,
        w: &mut [u32],
        out: &mut [u8],
        t: Tally,
        f: u32,
        h: Held,
    ) -> Result<Tally, Stopped>
        ensures { FunctionNode self.now.file.now self.now.lay self.now.limit WRITE t f h w.old out.old result w.new out.new }
    {
        if out.len().saturating_sub(t.size) < APPLICATION {
            return Err(Stopped {
                end: End::Output,
                tally: t,
            });
        }
        let arity = byte_at(self.file, 2 * f as usize + 1);
        let due = add(t.due, arity);
        if self.limit < due {
            return Err(Stopped {
                end: End::Work,
                tally: t,
            });
        }
        self.put_record::<WRITE>(out, t.size, Kind::Application, f);
        put_arguments(
            w,
            self.lay,
            t.due,
            arity,
            Place(on(h.place.0, APPLICATION)),
            h.base,
        );
        Ok(Tally {
            size: t.size + APPLICATION,
            due,
            ..t
        })
    }

    // A node of a value, by what following its term comes to.
    fn node<const WRITE: bool>(
        &self,
        w: &mut [u32],
        out: &mut [u8],
        t: Tally,
        found: Found,
    ) -> Result<Tally, Stopped>
        ensures { Node self.now.file.now self.now.lay self.now.limit WRITE t found w.old out.old result w.new out.new }
    {
        match found {
            Found::Unbound(x, _) => self.free_node::<WRITE>(w, out, t, x),
            Found::Function(f, h) => self.function_node::<WRITE>(w, out, t, f, h),
        }
    }

    // The foremost node due, behind which so many more are.
    fn next_node<const WRITE: bool>(
        &self,
        w: &mut [u32],
        out: &mut [u8],
        t: Tally,
    ) -> Result<Tally, Stopped>
        ensures { NextNode self.now.file.now self.now.lay self.now.limit WRITE self.now.hops t w.old out.old result w.new out.new }
    {
        let h = get_due(w, self.lay, t.due);
        self.node::<WRITE>(w, out, t, follow(self.file, w, self.lay, self.hops, h))
    }

    // The rest of a value: its nodes due.
    fn nodes<const WRITE: bool>(
        &self,
        w: &mut [u32],
        out: &mut [u8],
        first: Tally,
    ) -> Result<Tally, Stopped>
        ensures { Nodes self.now.file.now self.now.lay self.now.limit WRITE self.now.hops first w.old out.old result w.new out.new }
    {
        let mut t = first;
        // Kept: what is due grows and shrinks, so no range goes over it.
        while let Some(due) = t.due.checked_sub(1) {
            t = self.next_node::<WRITE>(w, out, Tally { due, ..t })?;
        }
        Ok(t)
    }

    // What a query variable comes to.
    #[tactic(auto, unfolding(crate::specs::Values::value_of, crate::specs::Values::cell_value))]
    fn read_value(&self, w: &[u32], x: CellNumber) -> Found
        ensures { result ≡ value_of self.now.hops self.now.file.now w.now self.now.lay x.0 }
    {
        match read_cell(w, self.lay, x) {
            Cell::Free => Found::Unbound(
                x,
                Held {
                    place: Place(0),
                    base: CellNumber(0),
                },
            ),
            Cell::Bound(h) => follow(self.file, w, self.lay, self.hops, h),
        }
    }

    // The value of a query variable.
    fn value<const WRITE: bool>(
        &self,
        w: &mut [u32],
        out: &mut [u8],
        t: Tally,
        x: CellNumber,
    ) -> Result<Tally, Stopped>
        ensures { Value self.now.file.now self.now.lay self.now.limit WRITE self.now.hops t x.0 w.old out.old result w.new out.new }
    {
        let found = self.read_value(w, x);
        let first = self.node::<WRITE>(w, out, Tally { due: 0, ..t }, found)?;
        self.nodes::<WRITE>(w, out, first)
    }

    // The values of all query variables in order, behind the first record.
    fn values<const WRITE: bool>(&self, w: &mut [u32], out: &mut [u8]) -> Result<Tally, Stopped>
        ensures { Values self.now.file.now self.now.lay self.now.limit WRITE self.now.hops self.now.variables 0 none_yet w.old out.old result w.new out.new }
    {
        let mut t = Tally {
            size: FIRST,
            free: 0,
            due: 0,
        };
        for x in 0..self.variables {
            t = self.value::<WRITE>(w, out, t, CellNumber(x))?;
        }
        Ok(t)
    }
}

// The first record of an answer: how many free variables and how many steps it has.
#[tactic(auto, unfolding(crate::specs::Written::first_put))]
fn put_first(out: &mut [u8], free: u32, steps: u32)
    ensures { out.new ≡ first_put free steps out.old }
{
    put_record(out, 0, Kind::Answer, free);
    put_two(out, 3, steps);
}

// The records of the steps, from an index on.
fn put_steps(w: &[u32], out: &mut [u8], lay: Layout, at: usize, steps: u32)
    ensures { out.new ≡ steps_put steps 0 lay w.now at out.old }
{
    for i in 0..steps {
        let k = get(w, lay.steps as usize + 8 * i as usize);
        put_record(out, on(at, STEP * i as usize), Kind::Step, k);
    }
}

// The records behind the values: one for each step, and the last.
#[tactic(auto, unfolding(crate::specs::Written::last_put))]
fn put_last(w: &[u32], out: &mut [u8], lay: Layout, at: usize, steps: u32)
    ensures { out.new ≡ last_put steps lay w.now at out.old }
{
    put_steps(w, out, lay, at, steps);
    put(
        out,
        on(at, STEP * steps as usize),
        u8::from(Kind::AnswerEnd),
    );
}

impl Derivation<'_> {
    // Measures the values of an answer: no byte is written.
    fn measure(&self, w: &mut [u32], out: &mut [u8]) -> Result<Tally, Stopped>
        ensures { Measures self.now.file.now self.now.lay self.now.limit self.now.variables self.now.cells self.now.hops w.old out.old result w.new out.new }
    {
        forget(w, self.lay, self.cells);
        self.values::<false>(w, out)
    }

    // Writes an answer that has been measured and fits, with so many steps and free variables. Behind the values, as far as they came,
    // stand the last records.
    fn write(&self, w: &mut [u32], out: &mut [u8], free: u32)
        ensures { Writes self.now.file.now self.now.lay self.now.limit self.now.variables self.now.steps self.now.hops free w.old out.old w.new out.new }
    {
        put_first(out, free, self.steps);
        let t = self
            .values::<true>(w, out)
            .unwrap_or_else(|stopped| stopped.tally);
        put_last(w, out, self.lay, t.size, self.steps);
    }

    // Writes the answer that its cells and steps hold from the first byte of the output on, or stops and leaves no byte. The end that stops
    // it is Output, where a record passes the room, or Work, where more nodes are due than the limit.
    pub fn answer(&self, w: &mut [u32], out: &mut [u8]) -> Result<usize, End>
        ensures { Answers self.now.file.now self.now.lay self.now.limit self.now.variables self.now.cells self.now.steps self.now.hops w.old out.old result w.new out.new }
    {
        if out.len() < FIRST {
            return Err(End::Output);
        }
        let t = self.measure(w, out)?;
        let rest = STEP * self.steps as usize + LAST;
        if out.len().saturating_sub(t.size) < rest {
            return Err(End::Output);
        }
        self.write(w, out, t.free);
        Ok(t.size + rest)
    }
}
