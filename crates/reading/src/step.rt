// One record: its kind, and the place after it.
ghost use Rattle.std.specs.Prelude.{◌≡◌, ◌+◌, ◌<◌, eqb, length};
ghost use Rattle.meaning.specs.Reading as definition;
ghost use Rattle.reading.specs.Steps.{step, any, either};
ghost use Rattle.records.specs.Numbers.{number};

use meaning::{Fault, Refusal};
use records::{Kind, body_length};
use words::byte_at;

// Where a reader comes to: so many variables of the clause or query have appeared, and this is the next place.
#[derive(Clone, Copy, PartialEq, Eq)]
pub struct Reached {
    pub seen: usize,
    pub at: usize,
}

// The byte at a place, as a number.
// Kept: words::byte_at tests each place against the file's length; a check of 60,000 bytes then took 3 to 65 percent longer, by the file.
#[tactic(auto, unfolding(meaning::specs::Reading::byte))]
pub fn byte(file: &[u8], at: usize) -> usize
    requires { at < length file.now }
    ensures same { result ≡ definition.byte file.now at }
    ensures small { result < 256 }
{
    usize::from(file[at])
}

// Whether a record of this kind stands here.
pub fn stands(file: &[u8], kind: Kind, at: usize) -> bool
    ensures { result ≡ eqb (definition.byte file.now at) (number kind) }
{
    byte_at(file, at) == kind as u32
}

// The record that stands here, whose kind is due: body short (4).
fn whole(file: &[u8], kind: u8, from: Reached) -> Result<Reached, Refusal>
    requires at_in_bounds { from.at < length file.now }
    requires kind_value { kind ≡ definition.byte file.now from.at }
    ensures { result ≡ step (definition.next file.now any from.seen from.at) }
{
    let at = from.at;
    let body = body_length(kind);
    if file.len() - at <= body {
        return Err(Fault::Short.at(at));
    }
    Ok(Reached {
        at: at + 1 + body,
        ..from
    })
}

// The record that stands here, if its kind is one of the two that are due: kind missing (4), kind (5), body short (4).
pub fn next(file: &[u8], one: Kind, other: Kind, from: Reached) -> Result<Reached, Refusal>
    ensures { result ≡ step (definition.next file.now (either (number one) (number other)) from.seen from.at) }
{
    let at = from.at;
    let kind = file.get(at).copied().ok_or(Fault::Short.at(at))?;
    // Kept as two calls: under each test the body's length is a constant, and a row of cuts is checked twice as fast.
    if stands(file, one, at) {
        return whole(file, kind, from);
    }
    if stands(file, other, at) {
        return whole(file, kind, from);
    }
    Err(Fault::Kind.at(at))
}
