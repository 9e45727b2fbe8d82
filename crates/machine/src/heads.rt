// Heads: each is tried, and its pairs are matched, until something else than a head is due.
ghost use Rattle.std.specs.Prelude.{◌≡◌};
ghost use Rattle.machine.specs.Running.{spent, Leads, MatchesHead, TriesPairs, TriesHeads};

use crate::run::Run;
use cells::Layout;
use matching::{Came, Clash, Matched, Matcher, Pairs};
use meaning::End;
use search::{Due, Regs, Trial, back, enter, go_on, room_for};
use words::add;

// A unit is spent.
pub fn spend(m: Regs) -> Regs
    ensures { result ≡ spent m }
{
    Regs {
        units: add(m.units, 1),
        ..m
    }
}

// What comes of a head whose pairs came out so: the run goes on with its goals, goes back, or is over.
#[tactic(auto, using(crate::specs::Running::leads_on, crate::specs::Running::leads_back, crate::specs::Running::leads_over, crate::specs::Running::leads_late))]
fn lead_on(file: &[u8], w: &mut [u32], lay: Layout, m: Regs, r: Matched) -> Due
    ensures { Leads file.now lay m r w.old result w.new }
{
    let n = Regs {
        trail: r.pairs.trail,
        work: r.pairs.work,
        fresh: r.pairs.fresh,
        units: r.units,
        ..m
    };
    match r.came {
        Came::Matched => go_on(file, w, lay, n),
        Came::Clashed(Clash::Differ) => back(w, lay, n),
        Came::Clashed(Clash::Over) => Due::Over(End::Work, n),
        Came::Late => Due::Over(End::Budget, n),
    }
}

impl Run<'_> {
    // A head that was entered is matched; it may have no pairs.
    fn match_head(&self, w: &mut [u32], m: Regs) -> Due
        ensures { MatchesHead self.now.file.now self.now.given self.now.budget m w.old result w.new }
    {
        let g = self.given;
        if m.work == 0 {
            return go_on(self.file, w, g.lay, m);
        }
        let matcher = Matcher {
            file: self.file,
            lay: g.lay,
            limit: g.limits.work,
            cells: m.cells,
        };
        let first = Pairs {
            trail: m.trail,
            work: m.work,
            fresh: m.fresh,
        };
        let r = matcher.match_pairs(w, first, m.units, self.budget);
        lead_on(self.file, w, g.lay, m, r)
    }

    // A head is tried, its unit being spent, and its pairs are matched.
    #[tactic(auto, using(crate::proofs::HeadLaws::try_over))]
    fn try_head(&self, w: &mut [u32], t: Trial, m: Regs) -> Due
        ensures { TriesPairs self.now.file.now self.now.given self.now.budget t m w.old result w.new }
    {
        match room_for(self.file, w, self.given, t.clause, m) {
            Ok(fit) => {
                let n = enter(self.file, w, self.given, t, m, fit);
                self.match_head(w, n)
            }
            Err(end) => Due::Over(end, m),
        }
    }

    // Heads are tried in turn, each for a unit, as long as one is due.
    #[tactic(auto, using(crate::proofs::HeadLaws::heads_end, crate::proofs::HeadLaws::heads_late))]
    pub fn try_heads(&self, w: &mut [u32], first: Regs, trial: Trial) -> Due
        ensures { TriesHeads self.now.file.now self.now.given self.now.budget first trial w.old result w.new }
    {
        let budget = self.budget;
        let mut m = first;
        let mut x = trial;
        // Kept: a head spends one unit for itself and one for each of its pairs, so no range goes over the units.
        while m.units < budget {
            match self.try_head(w, x, spend(m)) {
                Due::Try(n, y) => {
                    m = n;
                    x = y;
                }
                due => return due,
            }
        }
        Due::Over(End::Budget, m)
    }
}
