ghost use Rattle.std.specs.Prelude.{◌≡◌, ◌∷◌, ◌++◌, [], IfOk, Ok, OnErr, OnOk};

use ris_base::NoMemory;

/// Two values that were both made.
pub(crate) fn both<A: Drop, B: Drop>(
    a: Result<A, NoMemory>,
    b: Result<B, NoMemory>,
) -> Result<(A, B), NoMemory>
    ensures a { IfOk result (λ pair. a ≡ Ok pair.0) }
    ensures b { IfOk result (λ pair. b ≡ Ok pair.1) }
{
    let a = a?;
    let b = b?;
    Ok((a, b))
}

/// Puts a value here, where all of it was made.
pub(crate) fn put<T: Drop>(
    here: &mut T,
    value: T,
    made: Result<(), NoMemory>,
) -> Result<(), NoMemory>
    ensures result { result ≡ made }
    ensures ok { OnOk made (here.new ≡ value) }
    ensures err { OnErr made (here.new ≡ here.old) }
{
    made?;
    *here = value;
    Ok(())
}

/// One item more at the end of both lists. After `NoMemory` both are as before.
pub(crate) fn push_both<A: Drop, B: Drop>(
    first: &mut Vec<A>,
    second: &mut Vec<B>,
    a: A,
    b: B,
) -> Result<(), NoMemory>
    ensures first { OnOk result (first.new.items ≡ first.old.items ++ a ∷ []) }
    ensures second { OnOk result (second.new.items ≡ second.old.items ++ b ∷ []) }
    ensures no_first { OnErr result (first.new.items ≡ first.old.items) }
    ensures no_second { OnErr result (second.new.items ≡ second.old.items) }
{
    let length = first.len();
    first.push(a)?;
    if let Err(_) = second.push(b) {
        first.truncate(length);
        return Err(NoMemory);
    }
    Ok(())
}
