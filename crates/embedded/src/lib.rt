// What a C program calls, thin: crates/embedded_c exports these functions.
// Kept twice, and with as many parameters: the C interface needs it, and a crate is a library for others or one for C.
#![tactic(auto)]

mod told;

ghost use Rattle.std.specs.Prelude.{◌≡◌};
ghost use Rattle.meaning.specs.Reading.{parse};
ghost use Rattle.meaning.specs.Outcome.{fault_number};
ghost use Rattle.embedded.specs.Checking.{halves_of, checked_number};
ghost use Rattle.embedded.specs.Telling.{packed_of, CallTells, EmbedRuns, EmbedTells};

use machine::call;
use meaning::{Fault, Outcome, Refusal};
use reading::check;
use search::Limits;
use told::tell;

// Two numbers in the halves of one, the lower by its remainder.
fn halves(high: u32, low: u64) -> u64
    ensures { result ≡ halves_of high low }
{
    (high as u64) * 4294967296 + low % 4294967296
}

// A refusal as one number: its own in the upper half, the place in the lower.
// A place of a file in use is at most 60,000, so its remainder by 2^32 is the place itself.
fn refused(r: Refusal) -> u64
    ensures { result ≡ halves_of (fault_number r.fault) r.place.0 }
{
    halves(u32::from(r.fault), r.place.0 as u64)
}

// Any bytes are checked as a rule file: 0 where it is good, else the refusal.
#[tactic(auto, using(crate::proofs::Laws::check_refused, crate::proofs::Laws::check_good))]
pub fn pegplanet_check(file: &[u8]) -> u64
    ensures { result ≡ checked_number (parse file.now) }
{
    match check(file) {
        Err(r) => refused(r),
        Ok(_) => 0,
    }
}

// The whole call. The words of its result: end or refusal, place, answers, units, bytes, then zeros; as many as there is room for.
pub fn pegplanet_call(
    file: &[u8],
    cells: u32,
    steps: u32,
    work: u32,
    budget: u32,
    wanted: u32,
    scratch: &mut [u32],
    out: &mut [u8],
    res: &mut [u64],
)
    ensures { CallTells file.now (record { cells = cells; steps = steps; work = work }) budget wanted scratch.old out.old res.old scratch.new out.new res.new }
{
    let r = call(
        file,
        Limits { cells, steps, work },
        budget,
        wanted,
        scratch,
        out,
    );
    tell(res, r);
}

// The outcome as one number: end or refusal in the upper half; in the lower the bytes written after an end, the place after a refusal.
#[tactic(auto, using(crate::proofs::CallLaws::refused_packed, crate::proofs::CallLaws::ended_packed))]
fn pack(r: Outcome) -> u64
    ensures { result ≡ packed_of r }
{
    match r {
        Err(r) => refused(r),
        Ok(e) => halves(u32::from(e.end), e.totals.bytes as u64),
    }
}

// The call with limits and scratch of its own.
fn embedded(file: &[u8], budget: u32, wanted: u32, out: &mut [u8]) -> Outcome
    ensures { EmbedRuns file.now budget wanted out.old result out.new }
{
    let too_long = 4000 < file.len();
    if too_long {
        return Err(Fault::Length.at(0));
    }
    let mut scratch = [0u32; 16064];
    call(
        file,
        Limits {
            cells: 1000,
            steps: 400,
            work: 200,
        },
        budget,
        wanted,
        &mut scratch,
        out,
    )
}

// The embedded form. Of the output at most 4,000,000,000 bytes count as room.
pub fn pegplanet_run(file: &[u8], budget: u32, wanted: u32, out: &mut [u8]) -> u64
    ensures { EmbedTells file.now budget wanted out.old result out.new }
{
    if 4000000000 < out.len() {
        return pack(embedded(file, budget, wanted, &mut out[..4000000000]));
    }
    pack(embedded(file, budget, wanted, out))
}
