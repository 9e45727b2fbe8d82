// What an outcome says, in words.
ghost use Rattle.std.specs.Prelude.{◌≡◌};
ghost use Rattle.meaning.specs.Outcome.{says};
ghost use Rattle.embedded.specs.Telling.{told_all, told};

use meaning::{Outcome, Place, Totals};
use words::put_four;

// What a refusal has written and spent.
const NOTHING: Totals = Totals {
    answers: 0,
    units: 0,
    bytes: 0,
};

// The twelve words, as many as the result holds: five, and seven zeros.
#[tactic(auto, using(crate::proofs::CallLaws::all_put))]
fn put_all(res: &mut [u64], number: u32, place: Place, t: Totals)
    ensures { res.new ≡ told_all number place.0 t.answers t.units t.bytes res.old }
{
    put_four(
        res,
        0,
        number as u64,
        place.0 as u64,
        t.answers as u64,
        t.units as u64,
    );
    put_four(res, 4, t.bytes as u64, 0, 0, 0);
    put_four(res, 8, 0, 0, 0, 0);
}

// As many of the words of an outcome as the result holds.
pub fn tell(res: &mut [u64], r: Outcome)
    ensures { res.new ≡ told (says r) res.old }
{
    match r {
        Err(r) => put_all(res, u32::from(r.fault), r.place, NOTHING),
        Ok(e) => put_all(res, u32::from(e.end), Place(0), e.totals),
    }
}
