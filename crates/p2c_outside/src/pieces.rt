ghost use Rattle.std.specs.Prelude.{◌≡◌, ◌+◌, ◌≤◌, ◌↔◌, ◌++◌, IsTrue, Contains, length, take, drop};
ghost use Rattle.p2c_outside.specs.Pieces.{moved, with_front};

/// Copies bytes of `from`, from `at` on, into the front of `into`, at most `most` of them, and
/// answers how many.
pub(crate) fn fill_front(from: &[u8], at: usize, most: usize, into: &mut [u8]) -> usize
    requires { at ≤ length from.now }
    ensures count { result ≡ moved (length into.old) most (length (drop at from.now)) }
    ensures copied { into.new ≡ with_front result (drop at from.now) into.old }
    ensures front { take result into.new ≡ take result (drop at from.now) }
    ensures rest { drop at from.now ≡ take result into.new ++ drop (at + result) from.now }
{
    let there = &from[at..];
    let count = into.len().min(most).min(there.len());
    into[..count].copy_from_slice(&there[..count]);
    count
}

/// Whether the number of a call is listed.
pub(crate) fn is_listed(list: &[u64], call: u64) -> bool
    ensures { IsTrue result ↔ Contains list.now call }
{
    list.contains(&call)
}
