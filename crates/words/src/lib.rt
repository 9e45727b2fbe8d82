// Words of scratch and bytes of the file, by index: past the end there is nothing, which reads as 0 and is not written. So reading and
// writing ask nothing of a caller.
#![tactic(auto)]

ghost use Rattle.std.specs.Prelude.{◌≡◌, ◌+◌, ◌*◌, ◌%◌, ◌^◌, ◌<◌, slice_index, set};
ghost use Rattle.meaning.specs.Reading.{byte, two_bytes};
ghost use Rattle.words.specs.Words.{plus, ahead, put_four};

// The word at an index.
pub fn get(w: &[u32], i: usize) -> u32
    ensures { result ≡ slice_index w.now i }
{
    w.get(i).copied().unwrap_or(0)
}

// Sets what stands at an index: a word, or a byte.
pub fn put<T: Copy>(w: &mut [T], i: usize, v: T)
    ensures { w.new ≡ set w.old i v }
{
    if i < w.len() {
        w[i] = v;
    }
}

// Sets four in a row. Kept: one test of the room, and four writes. A whole run takes 5 in a hundred longer with four calls of put alone, and
// matching does with the slice's copy, which puts the four on the stack first and asks whether they overlap.
#[tactic(auto, using(crate::proofs::Laws::four_within), unfolding(crate::specs::Words::put_four))]
pub fn put_four<T: Copy>(w: &mut [T], at: usize, a: T, b: T, c: T, d: T)
    ensures { w.new ≡ put_four w.old at a b c d }
{
    if at < w.len() && 3 < w.len() - at {
        w[at] = a;
        w[at + 1] = b;
        w[at + 2] = c;
        w[at + 3] = d;
        return;
    }
    put(w, at, a);
    put(w, on(at, 1), b);
    put(w, on(at, 2), c);
    put(w, on(at, 3), d);
}

// The byte of the file at a place.
#[tactic(auto, unfolding(meaning::specs::Reading::byte))]
pub fn byte_at(file: &[u8], p: usize) -> u32
    ensures is { result ≡ byte file.now p }
    ensures small { result < 256 }
{
    u32::from(file.get(p).copied().unwrap_or(0))
}

// The byte so far behind a place.
#[tactic(auto, using(crate::proofs::Laws::byte_far))]
pub fn byte_after(file: &[u8], p: usize, k: usize) -> u32
    ensures is { result ≡ byte file.now (p + k) }
    ensures small { result < 256 }
{
    match p.checked_add(k) {
        Some(q) => byte_at(file, q),
        None => 0,
    }
}

// The two-byte number behind a record's kind, the high byte first.
#[tactic(auto, using(crate::proofs::Laws::number_split))]
pub fn number_after(file: &[u8], p: usize) -> u32
    ensures is { result ≡ two_bytes file.now (p + 1) }
    ensures small { result < 65536 }
{
    let high = byte_after(file, p, 1);
    let low = byte_after(file, p, 2);
    256 * high + low
}

// The sum of two words. In a run no sum passes the last word.
#[tactic(auto, unfolding(crate::specs::Words::plus))]
pub fn add(a: u32, b: u32) -> u32
    ensures { result ≡ plus a b }
{
    a.wrapping_add(b)
}

// The place so many bytes on. In a run no place passes the file.
#[tactic(auto, unfolding(crate::specs::Words::ahead))]
pub fn on(p: usize, n: usize) -> usize
    ensures { result ≡ ahead p n }
{
    p.wrapping_add(n)
}
