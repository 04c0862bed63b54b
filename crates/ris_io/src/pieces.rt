ghost use Rattle.std.specs.Prelude.{◌≡◌, ◌++◌, length, take, drop, min};

/// Copies as many bytes as both have, and at most so many, over the front of the second. Answers how many.
pub(crate) fn copy_front(from: &[u8], to: &mut [u8], most: u64) -> usize
    ensures count { result ≡ min most (min (length to.old) (length from.now)) }
    ensures copied { to.new ≡ take result from.now ++ drop result to.old }
{
    let both = to.len().min(from.len());
    let n = most.min(both as u64) as usize;
    to[..n].copy_from_slice(&from[..n]);
    n
}
