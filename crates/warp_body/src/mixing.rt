//! Numbers that look drawn: outputs of the generator SplitMix64, each by its number.
//!
//! No state is kept, so the same seed and number give the same output wherever and whenever they are asked for.
ghost use Rattle.std.specs.Prelude.{◌≡◌};
ghost use Rattle.std.specs.Int.{w64, cast_unsigned};
ghost use Rattle.warp_body.specs.Mixing.{mix_of, output_of, state_after};

/// Output number `number`, 1 for the first, of the generator with this seed.
#[inline(always)]
pub(crate) fn mixed(seed: i64, number: i64) -> i64
    ensures { result ≡ mix_of seed number }
{
    output(state(seed, number)).cast_signed()
}

/// The state after so many steps from a seed.
#[inline(always)]
fn state(seed: i64, steps: i64) -> u64
    ensures { result ≡ state_after (cast_unsigned w64 seed) (cast_unsigned w64 steps) }
{
    let passed = steps.cast_unsigned().wrapping_mul(0x9e37_79b9_7f4a_7c15);
    seed.cast_unsigned().wrapping_add(passed)
}

/// The output that a state gives.
#[inline(always)]
fn output(state: u64) -> u64
    ensures { result ≡ output_of state }
{
    let mut z = state;
    z = (z ^ (z >> 30)).wrapping_mul(0xbf58_476d_1ce4_e5b9);
    z = (z ^ (z >> 27)).wrapping_mul(0x94d0_49bb_1331_11eb);
    z ^ (z >> 31)
}
