// The cells in scratch: what they hold, following them, binding, going back, and the check inside a value.
#![tactic(auto)]

ghost use Rattle.std.specs.Prelude.{◌≡◌, ◌+◌, ◌<◌, set};
ghost use Rattle.cells.specs.Cells.{word_of_place, held_at, place_after, word_of, cell_of, cell_at, node_of, hop_of, followed, undone, freed, Visit, Meet, width_of, Small, Scan, ScanHeld, LookInto, Inside};

use meaning::{CellNumber, Place};
use records::Kind;
use words::{add, byte_after, byte_at, get, number_after, on, put};

// A term of the file: its place, with the cell that its variables are counted from.
#[derive(Clone, Copy)]
pub struct Held {
    pub place: Place,
    pub base: CellNumber,
}

// What a cell holds: nothing, or the term that its variable is bound to.
// Kept, and no Option: document 01 names this form (docs/DECISIONS.md).
#[derive(Clone, Copy)]
pub enum Cell {
    Free,
    Bound(Held),
}

// What stands at a place: a variable, which is a cell, or a function applied.
#[derive(Clone, Copy)]
pub enum Node {
    Variable(CellNumber),
    Applied(u32),
}

// What following a term comes to: a free variable, or a function applied, and where that stands.
#[derive(Clone, Copy)]
pub enum Found {
    Unbound(CellNumber, Held),
    Function(u32, Held),
}

// Where the regions of scratch begin.
// Kept as places in one list of words, which the C program lends, there being no heap; and beside these words, not in a struct with them: a
// method that writes through such a struct has to promise that the layout and the lender stay, which makes three clauses of one (tried). For
// what only reads, such a struct would be made anew between two writes, mostly for one call; search, which reads more, has one.
#[derive(Clone, Copy)]
pub struct Layout {
    pub firsts: u32,
    pub cells: u32,
    pub clauses: u32,
    pub trail: u32,
    pub marks: u32,
    pub list: u32,
    pub steps: u32,
    pub work: u32,
}

// A place as a word.
// Kept, and no From: it would stand beside Place, in meaning, and a cast that loses something is not proved.
#[tactic(auto, unfolding(crate::specs::Cells::word_of_place))]
pub fn place_word(p: Place) -> u32
    ensures { result ≡ word_of_place p }
{
    (p.0 % 4294967296) as u32
}

// The term that two words hold.
#[tactic(auto, unfolding(crate::specs::Cells::held_at))]
pub fn read_held(w: &[u32], at: usize) -> Held
    ensures { result ≡ held_at w.now at }
{
    Held {
        place: Place(get(w, at) as usize),
        base: CellNumber(get(w, on(at, 1))),
    }
}

// The place after the term or goal that stands at a place; for a clause, that of its body.
#[tactic(auto, unfolding(crate::specs::Cells::place_after))]
pub fn after(w: &[u32], p: Place) -> Place
    ensures { result ≡ place_after w.now p }
{
    Place(get(w, on(64, p.0)) as usize)
}

// A bound cell as a word, from 1 on: 0 is a free one.
impl From<Held> for u32 {
    ghost from_gives = { λ h v. v ≡ word_of h };

    #[tactic(auto, unfolding(crate::specs::Cells::word_of))]
    fn from(h: Held) -> u32 {
        add(((h.place.0 % 65536) as u32) * 65536 + h.base.0 % 65536, 1)
    }
}

// The cell that a word stands for.
impl From<u32> for Cell {
    ghost from_gives = { λ v c. c ≡ cell_of v };

    #[tactic(auto, using(crate::proofs::Laws::choices), unfolding(crate::specs::Cells::cell_of))]
    fn from(v: u32) -> Cell {
        match v.checked_sub(1) {
            None => Cell::Free,
            Some(x) => Cell::Bound(Held {
                place: Place((x / 65536) as usize),
                base: CellNumber(x % 65536),
            }),
        }
    }
}

// What a cell holds.
#[tactic(auto, unfolding(crate::specs::Cells::cell_at))]
pub fn read_cell(w: &[u32], lay: Layout, x: CellNumber) -> Cell
    ensures { result ≡ cell_at w.now lay x.0 }
{
    Cell::from(get(w, (lay.cells as usize) + (x.0 as usize)))
}

// What stands at the place of a term.
#[tactic(auto, using(crate::proofs::Laws::choices), unfolding(crate::specs::Cells::node_of))]
pub fn read_node(file: &[u8], h: Held) -> Node
    ensures { result ≡ node_of file.now h }
{
    if byte_at(file, h.place.0) == Kind::Variable as u32 {
        return Node::Variable(CellNumber(add(h.base.0, byte_after(file, h.place.0, 1))));
    }
    Node::Applied(number_after(file, h.place.0))
}

// One hop along a term: what it comes to, or else the next term, which its variable is bound to.
#[tactic(auto, unfolding(crate::specs::Cells::hop_of, crate::specs::Cells::hop_node, crate::specs::Cells::hop_cell))]
fn hop_from(file: &[u8], w: &[u32], lay: Layout, h: Held) -> Result<Found, Held>
    ensures { result ≡ hop_of file.now w.now lay h }
{
    match read_node(file, h) {
        Node::Applied(f) => Ok(Found::Function(f, h)),
        Node::Variable(x) => match read_cell(w, lay, x) {
            Cell::Free => Ok(Found::Unbound(x, h)),
            Cell::Bound(next) => Err(next),
        },
    }
}

// Bound variables are followed, for at most so many hops.
#[tactic(auto, using(crate::proofs::Laws::follows))]
pub fn follow(file: &[u8], w: &[u32], lay: Layout, hops: u32, h: Held) -> Found
    ensures { result ≡ followed hops file.now w.now lay h }
{
    let mut at = h;
    for _ in 0..hops {
        match hop_from(file, w, lay, at) {
            Ok(found) => return found,
            Err(next) => at = next,
        }
    }
    hop_from(file, w, lay, at).unwrap_or(Found::Function(0, at))
}

// Binds the free cell x, as the latest of the trail.
pub fn bind(w: &mut [u32], lay: Layout, trail: u32, x: CellNumber, h: Held)
    ensures { w.new ≡ set (set w.old (lay.cells + x.0) (word_of h)) (lay.trail + trail) x.0 }
{
    put(w, (lay.cells as usize) + (x.0 as usize), u32::from(h));
    put(w, (lay.trail as usize) + (trail as usize), x.0);
}

// Frees the cells that were bound since the trail had the length mark.
#[tactic(auto, using(crate::proofs::Laws::undoes))]
pub fn undo(w: &mut [u32], lay: Layout, trail: u32, mark: u32)
    ensures { w.new ≡ undone trail mark lay w.old }
{
    for t in (mark..trail).rev() {
        let x = get(w, (lay.trail as usize) + (t as usize));
        put(w, (lay.cells as usize) + (x as usize), 0);
    }
}

// So many fresh cells from a number on are free, and unmarked.
// Kept, and no `fill`: that would ask that the cells stand in the words, and their numbers wrap.
#[tactic(auto, using(crate::proofs::Laws::frees))]
pub fn clear(w: &mut [u32], lay: Layout, from: u32, count: u32)
    ensures { w.new ≡ freed count from lay w.old }
{
    for i in (0..count).rev() {
        let x = add(from, i);
        put(w, (lay.cells as usize) + (x as usize), 0);
        put(w, (lay.marks as usize) + (x as usize), 0);
    }
}

// How many bytes the record of a term at p takes.
#[tactic(auto, using(crate::proofs::Laws::choices), unfolding(crate::specs::Cells::width_of))]
fn width(file: &[u8], p: usize) -> usize
    ensures value { result ≡ width_of file.now p }
    ensures small { Small result }
{
    if byte_at(file, p) == Kind::Variable as u32 {
        2
    } else {
        3
    }
}

// The check inside a value: the file, where the regions of scratch begin, the mark of the cells that are listed, and the variable that is
// looked for. A method that gives an Option gives None where it met that variable, and else how many bound cells are listed to be looked into.
#[derive(Clone, Copy)]
pub struct InnerCheck<'a> {
    pub file: &'a [u8],
    pub lay: Layout,
    pub stamp: u32,
    pub x: CellNumber,
}

impl InnerCheck<'_> {
    // A variable of the value: the one that is looked for, a free one, or a bound one, which is listed once.
    #[tactic(auto, using(crate::proofs::Laws::visits))]
    fn visit(&self, w: &mut [u32], y: CellNumber, count: u32) -> Option<u32>
        ensures { Visit self.now.lay self.now.stamp self.now.x.0 y.0 count w.old result w.new }
    {
        if y == self.x {
            return None;
        }
        // Kept as a word, 0 for a free cell, as the relation Visit has it: the term that it holds is not looked at here.
        let cell = get(w, (self.lay.cells as usize) + (y.0 as usize));
        if cell == 0 {
            return Some(count);
        }
        let mark = get(w, (self.lay.marks as usize) + (y.0 as usize));
        if mark == self.stamp {
            return Some(count);
        }
        put(w, (self.lay.marks as usize) + (y.0 as usize), self.stamp);
        put(w, (self.lay.list as usize) + (count as usize), y.0);
        Some(add(count, 1))
    }

    // The record at p: a variable is met, and a function passed.
    #[tactic(auto, using(crate::proofs::Laws::meets))]
    fn meet(&self, w: &mut [u32], base: CellNumber, p: usize, count: u32) -> Option<u32>
        ensures { Meet self.now.file.now self.now.lay self.now.stamp self.now.x.0 base.0 p count w.old result w.new }
    {
        if byte_at(self.file, p) == Kind::Variable as u32 {
            let y = add(base.0, byte_after(self.file, p, 1));
            return self.visit(w, CellNumber(y), count);
        }
        Some(count)
    }

    // The variables of the term that stands up to an end.
    #[tactic(auto, using(crate::proofs::Laws::scans))]
    fn scan_from(&self, w: &mut [u32], h: Held, end: u32, count: u32) -> Option<u32>
        ensures { Scan self.now.file.now self.now.lay self.now.stamp self.now.x.0 h.base.0 end h.place.0 count w.old result w.new }
    {
        let mut p = h.place.0;
        let mut n = count;
        // Kept: a record's width says where the next one stands, so no range goes over the records.
        while p < (end as usize) {
            n = self.meet(w, h.base, p, n)?;
            p += width(self.file, p);
        }
        Some(n)
    }

    // The variables of the term that is held.
    fn scan(&self, w: &mut [u32], h: Held, count: u32) -> Option<u32>
        ensures { ScanHeld self.now.file.now self.now.lay self.now.stamp self.now.x.0 h count w.old result w.new }
    {
        // Kept beside `after`: as a word the end is small, so that no place in front of it and no width pass the last place.
        let end = get(w, on(64, h.place.0));
        self.scan_from(w, h, end, count)
    }

    // The cell that is listed at i is looked into.
    #[tactic(auto, using(crate::proofs::Laws::looks_into))]
    fn look_into(&self, w: &mut [u32], i: u32, count: u32) -> Option<u32>
        ensures { LookInto self.now.file.now self.now.lay self.now.stamp self.now.x.0 i count w.old result w.new }
    {
        let y = get(w, (self.lay.list as usize) + (i as usize));
        match read_cell(w, self.lay, CellNumber(y)) {
            Cell::Free => Some(count),
            Cell::Bound(t) => self.scan(w, t, count),
        }
    }

    // Whether the variable stands inside the value of a term, where at most so many cells are bound.
    #[tactic(auto, using(crate::proofs::Laws::looks_on))]
    pub fn inside(&self, w: &mut [u32], bound: u32, h: Held) -> bool
        ensures { Inside self.now.file.now self.now.lay self.now.stamp bound self.now.x.0 h w.old result w.new }
    {
        let mut listed = self.scan(w, h, 0);
        for i in 0..bound {
            let Some(count) = listed else {
                return true;
            };
            if count <= i {
                return false;
            }
            listed = self.look_into(w, i, count);
        }
        listed.is_none()
    }
}
