// A run: from what is due to what is due next, until it is over.
ghost use Rattle.std.specs.Prelude.{◌≡◌, ◌≤◌, length};
ghost use Rattle.machine.specs.Running.{over_of, behind_of, WritesBehind, Lists, Cuts, NoPair, Turns, Runs};

use crate::heads::spend;
use answers::Derivation;
use meaning::{End, Ended, Outcome, Totals};
use search::{Due, Given, Regs, back, move_cut, start};
use words::{add, byte_after, on};

// A run: the file, what it is given beside it, its budget, and how many answers are wanted.
#[derive(Clone, Copy)]
pub struct Run<'a> {
    pub file: &'a [u8],
    pub given: Given,
    pub budget: u32,
    pub wanted: u32,
}

// What has been written: answers, and bytes of output.
#[derive(Clone, Copy)]
pub struct Written {
    pub answers: u32,
    pub bytes: usize,
}

// What is due, and what has been written.
#[derive(Clone, Copy)]
pub struct Turn {
    pub due: Due,
    pub written: Written,
}

// An answer is behind what has been written.
fn behind(t: Written, size: usize) -> Written
    ensures { result ≡ behind_of t size }
{
    Written {
        answers: add(t.answers, 1),
        bytes: on(t.bytes, size),
    }
}

// How a run ended.
fn over(end: End, m: Regs, t: Written) -> Outcome
    ensures { result ≡ over_of end m t }
{
    Ok(Ended {
        end,
        totals: Totals {
            answers: t.answers,
            units: m.units,
            bytes: t.bytes,
        },
    })
}

impl Run<'_> {
    // An answer is written behind the bytes used, into the rest of the output.
    fn write_behind(
        &self,
        w: &mut [u32],
        out: &mut [u8],
        m: Regs,
        used: usize,
    ) -> Result<usize, End>
        requires { used ≤ length out.old }
        ensures { WritesBehind self.now.file.now self.now.given m used w.old out.old result w.new out.new }
    {
        let derivation = Derivation {
            file: self.file,
            lay: self.given.lay,
            limit: self.given.limits.work,
            variables: byte_after(self.file, self.given.query.0, 1),
            cells: m.cells,
            steps: m.steps,
            hops: m.trail,
        };
        derivation.answer(w, &mut out[used..])
    }

    // An answer is due. It is written behind the others; then the run goes back, or has all that was wanted.
    #[tactic(auto, using(crate::proofs::Laws::list_none, crate::proofs::Laws::list_over, crate::proofs::Laws::list_last, crate::proofs::Laws::list_back))]
    fn list(&self, w: &mut [u32], out: &mut [u8], m: Regs, t: Written) -> Turn
        ensures { Lists self.now.file.now self.now.given self.now.wanted m t w.old out.old result.due result.written w.new out.new }
    {
        if out.len() < t.bytes {
            return Turn {
                due: Due::Over(End::Output, m),
                written: t,
            };
        }
        match self.write_behind(w, out, m, t.bytes) {
            Ok(size) => {
                let written = behind(t, size);
                let due = if written.answers == self.wanted {
                    Due::Over(End::Wanted, m)
                } else {
                    back(w, self.given.lay, m)
                };
                Turn { due, written }
            }
            Err(end) => Turn {
                due: Due::Over(end, m),
                written: t,
            },
        }
    }

    // A cut, where a unit is left for it.
    #[tactic(auto, using(crate::proofs::Laws::cut_no_unit, crate::proofs::Laws::cut_a_unit))]
    fn cut(&self, w: &mut [u32], m: Regs) -> Due
        ensures { Cuts self.now.file.now self.now.given self.now.budget m w.old result w.new }
    {
        let late = self.budget <= m.units;
        if late {
            return Due::Over(End::Budget, m);
        }
        move_cut(self.file, w, self.given.lay, spend(m))
    }

    // What is due is done: heads and their pairs, a cut, or an answer. Between heads no pair is due.
    #[tactic(auto, using(crate::proofs::Laws::turn_cut, crate::proofs::Laws::turn_over, crate::proofs::Laws::turn_list, crate::proofs::Laws::turn_pair, crate::proofs::Laws::turn_heads))]
    fn one_turn(&self, w: &mut [u32], out: &mut [u8], turn: Turn) -> Turn
        requires { NoPair turn.due }
        ensures { Turns self.now.file.now self.now.given self.now.budget self.now.wanted turn.due turn.written w.old out.old result.due result.written w.new out.new }
    {
        // Kept: what is due carries values of its own in each case, which a table of closures would have to be given.
        let due = match turn.due {
            Due::Answer(m) => return self.list(w, out, m, turn.written),
            Due::Try(m, x) => self.try_heads(w, m, x),
            Due::Cut(m) => self.cut(w, m),
            Due::Pair(_) | Due::Over(_, _) => turn.due,
        };
        Turn { due, ..turn }
    }

    // The run of a good file, once its tables are laid out: from what is due to what is due next, until it is over.
    #[tactic(auto, using(crate::proofs::Laws::running_start, crate::proofs::Laws::running_less, crate::proofs::Laws::running_again, crate::proofs::Laws::running_end))]
    pub fn whole(&self, w: &mut [u32], out: &mut [u8]) -> Outcome
        ensures { Runs self.now.file.now self.now.given self.now.budget self.now.wanted w.old out.old result w.new out.new }
    {
        let mut turn = Turn {
            due: start(self.file, w, self.given, self.wanted),
            written: Written {
                answers: 0,
                bytes: 0,
            },
        };
        // Kept: what is due is what the turn before left, so there is nothing to go over.
        loop {
            if let Due::Over(end, m) = turn.due {
                return over(end, m, turn.written);
            }
            turn = self.one_turn(w, out, turn);
        }
    }
}
