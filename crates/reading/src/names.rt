// The functions and predicates of a file, by number.
ghost use Rattle.std.specs.Prelude.{◌≡◌, ◌+◌, ◌*◌, ◌≤◌, ◌<◌, length};
ghost use Rattle.reading.specs.Arities.{arities, functions_of, predicates_of, arity};

use crate::step::byte;
use records::two_bytes;

// A file whose functions and predicates are read: so many of each, the predicates behind the functions.
#[derive(Clone, Copy)]
pub struct Names<'a> {
    pub functions: usize,
    pub predicates: usize,
    pub file: &'a [u8],
    ghost inside: { 2 * functions + 2 * predicates ≤ length file.now },
}

// A clause or query of such a file: how many variables it declares.
#[derive(Clone, Copy)]
pub struct Scope<'a> {
    pub names: &'a Names<'a>,
    pub declared: usize,
}

// The arity for the number in the record at p, among so many records of two bytes from `start` on; none where the number is out of range.
fn arity_at(file: &[u8], start: usize, count: usize, p: usize) -> Option<usize>
    requires p_in_bounds { p + 2 < length file.now }
    requires count_in_bounds { start + 2 * count ≤ length file.now }
    ensures { result ≡ arity file.now (arities file.now start count) p }
{
    let number = two_bytes(file, p + 1);
    if count <= number {
        return None;
    }
    Some(byte(file, start + 2 * number + 1))
}

impl Names<'_> {
    // The arity of the function, or the predicate, whose number is in the record at p.
    pub fn function_arity(&self, p: usize) -> Option<usize>
        requires { p + 2 < length self.now.file.now }
        ensures { result ≡ arity self.now.file.now (functions_of self.now.file.now self.now.functions) p }
    {
        arity_at(self.file, 0, self.functions, p)
    }

    pub fn predicate_arity(&self, p: usize) -> Option<usize>
        requires { p + 2 < length self.now.file.now }
        ensures { result ≡ arity self.now.file.now (predicates_of self.now.file.now self.now.functions self.now.predicates) p }
    {
        arity_at(self.file, 2 * self.functions, self.predicates, p)
    }
}
