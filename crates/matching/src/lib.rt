// Matching a head: the list of pairs in scratch, whose front is the pair written last, and what taking that pair does.
#![tactic(auto)]

ghost use Rattle.std.specs.Prelude.{◌≡◌, ◌+◌, ◌*◌, Ok};
ghost use Rattle.words.specs.Words.{put_four};
ghost use Rattle.cells.specs.Cells.{word_of_place};
ghost use Rattle.matching.specs.Matching.{pushed, past_kind, bound_to, one_bound, BindChecked, Functions, front_of, Compares, TakesPair, MatchesPairs};

use cells::{Found, Held, InnerCheck, Layout, after, bind, follow, place_word, read_held};
use meaning::{CellNumber, Place};
use words::{add, byte_at, get, on, put_four};

// The term so many bytes on: behind the record of an applied function, a goal or a clause stands its first argument.
#[tactic(auto, unfolding(crate::specs::Matching::past_kind))]
pub fn behind(h: Held, k: usize) -> Held
    ensures { result ≡ past_kind h k }
{
    Held {
        place: Place(on(h.place.0, k)),
        ..h
    }
}

// Writes the pair of two terms.
fn put_pair(w: &mut [u32], lay: Layout, i: u32, g: Held, h: Held)
    ensures { w.new ≡ put_four w.old (lay.work + 4 * i) (word_of_place g.place) g.base.0 (word_of_place h.place) h.base.0 }
{
    put_four(
        w,
        (lay.work as usize) + 4 * (i as usize),
        place_word(g.place),
        g.base.0,
        place_word(h.place),
        h.base.0,
    );
}

// The pairs of so many arguments go in front of the list, the first of them foremost.
#[tactic(auto, using(crate::proofs::Laws::pushed_more), unfolding(crate::specs::Matching::pushed))]
pub fn push_pairs(w: &mut [u32], lay: Layout, work: u32, n: u32, g: Held, h: Held)
    ensures { w.new ≡ pushed n work lay g h w.old }
{
    let mut goal = g;
    let mut head = h;
    for i in (0..n).rev() {
        put_pair(w, lay, add(work, i), goal, head);
        goal = Held {
            place: after(w, goal.place),
            ..goal
        };
        head = Held {
            place: after(w, head.place),
            ..head
        };
    }
}

// How far a matching is: the lengths of the trail and of the list of pairs, and the first cell that no goal mentions.
#[derive(Clone, Copy, PartialEq, Eq)]
pub struct Pairs {
    pub trail: u32,
    pub work: u32,
    pub fresh: u32,
}

// Why the front pair ends a matching: a mismatch, or a list over W.
#[derive(Clone, Copy, PartialEq, Eq)]
pub enum Clash {
    Differ,
    Over,
}

// How the pairs of a head came out: it matched, a pair of it clashed, or the units were spent.
#[derive(Clone, Copy, PartialEq, Eq)]
pub enum Came {
    Matched,
    Clashed(Clash),
    Late,
}

// That, with how far the matching was then, and the units spent.
#[derive(Clone, Copy, PartialEq, Eq)]
pub struct Matched {
    pub came: Came,
    pub pairs: Pairs,
    pub units: u32,
}

// Goal side and head side of a pair, both followed.
#[derive(Clone, Copy)]
pub struct Front {
    pub goal: Found,
    pub head: Found,
}

// What a matching reads and leaves as it is: the file, where the regions of scratch begin, the limit W, and the cells taken so far.
#[derive(Clone, Copy)]
pub struct Matcher<'a> {
    pub file: &'a [u8],
    pub lay: Layout,
    pub limit: u32,
    pub cells: u32,
}

impl Matcher<'_> {
    // A free variable is bound to a value that it does not stand inside.
    #[tactic(auto, unfolding(crate::specs::Matching::one_bound, crate::specs::Matching::bound_to))]
    fn bind_unchecked(&self, w: &mut [u32], at: Pairs, x: CellNumber, h: Held) -> Pairs
        ensures value { Ok result ≡ one_bound at.trail at.work at.fresh }
        ensures w_after { w.new ≡ bound_to self.now.lay at.trail x h w.old }
    {
        bind(w, self.lay, at.trail, x, h);
        Pairs {
            trail: add(at.trail, 1),
            ..at
        }
    }

    // A free variable is bound, unless it stands inside its new value; the cells from fresh on are unmentioned then.
    #[tactic(auto, using(crate::specs::Matching::is_inside, crate::specs::Matching::binds))]
    fn bind_checked(
        &self,
        w: &mut [u32],
        stamp: u32,
        at: Pairs,
        x: CellNumber,
        h: Held,
    ) -> Result<Pairs, Clash>
        ensures { BindChecked self.now.file.now self.now.lay stamp at.trail at.work at.fresh x h w.old result w.new }
    {
        let check = InnerCheck {
            file: self.file,
            lay: self.lay,
            stamp,
            x,
        };
        if check.inside(w, at.trail, h) {
            return Err(Clash::Differ);
        }
        Ok(self.bind_unchecked(w, at, x, h))
    }

    // Two functions applied: they must be equal, and the argument pairs go in front.
    #[tactic(auto, using(crate::specs::Matching::unequal, crate::specs::Matching::crowded, crate::specs::Matching::equal))]
    fn functions(
        &self,
        w: &mut [u32],
        at: Pairs,
        f: u32,
        g: u32,
        s: Held,
        t: Held,
    ) -> Result<Pairs, Clash>
        ensures { Functions self.now.file.now self.now.lay self.now.limit at.trail at.work at.fresh f g s t w.old result w.new }
    {
        if f != g {
            return Err(Clash::Differ);
        }
        let n = byte_at(self.file, 2 * (f as usize) + 1);
        let longer = add(at.work, n);
        let too_many = self.limit < longer;
        if too_many {
            return Err(Clash::Over);
        }
        push_pairs(w, self.lay, at.work, n, behind(s, 3), behind(t, 3));
        Ok(Pairs { work: longer, ..at })
    }

    // What the two sides come to, with the list behind them. A free variable does not stand inside another; one that no goal mentions
    // stands in no value of a goal; a goal's variable that takes a value of the head mentions its cells.
    #[tactic(auto, using(crate::specs::Matching::both_applied, crate::proofs::Laws::one_cell))]
    fn compare(
        &self,
        w: &mut [u32],
        stamp: u32,
        at: Pairs,
        g: Found,
        h: Found,
    ) -> Result<Pairs, Clash>
        ensures { Compares self.now.file.now self.now.lay self.now.limit stamp self.now.cells at.trail at.work at.fresh g h w.old result w.new }
    {
        match (g, h) {
            (Found::Unbound(x, s), Found::Unbound(y, _)) => {
                if x == y {
                    return Ok(at);
                }
                Ok(self.bind_unchecked(w, at, y, s))
            }
            (Found::Function(_, s), Found::Unbound(y, _)) => {
                if at.fresh <= y.0 {
                    return Ok(self.bind_unchecked(w, at, y, s));
                }
                self.bind_checked(w, stamp, at, y, s)
            }
            (Found::Unbound(x, _), Found::Function(_, t)) => {
                let mentioned = Pairs {
                    fresh: self.cells,
                    ..at
                };
                self.bind_checked(w, stamp, mentioned, x, t)
            }
            (Found::Function(f, s), Found::Function(e, t)) => self.functions(w, at, f, e, s, t),
        }
    }

    // Both sides of the pair at an index of the list, followed.
    #[tactic(auto, unfolding(crate::specs::Matching::front_of))]
    fn front(&self, w: &[u32], trail: u32, i: u32) -> Front
        ensures { result ≡ front_of self.now.file.now w.now self.now.lay trail i }
    {
        let at = (self.lay.work as usize) + 4 * (i as usize);
        let goal = follow(self.file, w, self.lay, trail, read_held(w, at));
        let head = follow(self.file, w, self.lay, trail, read_held(w, at + 2));
        Front { goal, head }
    }

    // The front pair is taken; its list counts it, and no goal mentions a cell from fresh on.
    #[tactic(auto, using(crate::specs::Matching::no_pair, crate::specs::Matching::front))]
    pub fn take_pair(&self, w: &mut [u32], stamp: u32, at: Pairs) -> Result<Pairs, Clash>
        ensures { TakesPair self.now.file.now self.now.lay self.now.limit stamp self.now.cells at.trail at.work at.fresh w.old result w.new }
    {
        let rest = at.work.checked_sub(1).ok_or(Clash::Differ)?;
        let front = self.front(w, at.trail, rest);
        let left = Pairs { work: rest, ..at };
        self.compare(w, stamp, left, front.goal, front.head)
    }

    // The pairs are taken in turn, each for a unit.
    #[tactic(auto, using(crate::specs::Matching::late, crate::proofs::Laws::clashes, crate::proofs::Laws::matches, crate::proofs::Laws::goes))]
    pub fn match_pairs(&self, w: &mut [u32], first: Pairs, spent: u32, budget: u32) -> Matched
        ensures { MatchesPairs self.now.file.now self.now.lay self.now.limit budget self.now.cells first.trail first.work first.fresh spent w.old result w.new }
    {
        let mut pairs = first;
        for unit in spent..budget {
            let units = unit + 1;
            match self.take_pair(w, units, pairs) {
                Ok(next) => {
                    pairs = next;
                    if pairs.work == 0 {
                        return Matched {
                            came: Came::Matched,
                            pairs,
                            units,
                        };
                    }
                }
                Err(clash) => {
                    return Matched {
                        came: Came::Clashed(clash),
                        pairs,
                        units,
                    };
                }
            }
        }
        Matched {
            came: Came::Late,
            pairs,
            units: spent.max(budget),
        }
    }
}
