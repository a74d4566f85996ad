//! What two steps gave that may each have failed.
ghost use Rattle.std.specs.Prelude.{◌≡◌};
ghost use Rattle.warp_prog.specs.inner.Read.{both};

/// Both values, or the first error.
pub(crate) fn both<A: Drop, B: Drop, E: Drop>(
    first: Result<A, E>,
    second: Result<B, E>,
) -> Result<(A, B), E>
    ensures { result ≡ both first second }
{
    match first {
        Ok(one) => match second {
            Ok(other) => Ok((one, other)),
            Err(error) => Err(error),
        },
        Err(error) => Err(error),
    }
}
