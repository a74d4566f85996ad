//! A product over a divisor, whole in 128 bits on its way.
ghost use Rattle.std.specs.Prelude.{◌≡◌, ◌≢◌, ◌*ℤ◌, pos};
ghost use Rattle.std.specs.Int.{int_wrapping_div_euclid, w128};
ghost use Rattle.warp_body.specs.Term.{low_bits_of, quotient_of_product};

use crate::operator::is_true;

/// The Euclidean quotient of the product of two numbers by a third one: its low 64 bits, 0 for the divisor 0.
#[inline(never)]
pub(crate) fn multiply_divide(a: i64, b: i64, c: i64) -> i64
    ensures { result ≡ quotient_of_product a b c }
{
    if is_true(c) {
        low_bits(quotient(product(a, b), i128::from(c)))
    } else {
        0
    }
}

/// The product.
fn product(a: i64, b: i64) -> i128
    ensures { result ≡ a *ℤ b }
{
    i128::from(a) * i128::from(b)
}

/// The Euclidean quotient.
fn quotient(number: i128, divisor: i128) -> i128
    requires { divisor ≢ pos 0 }
    ensures { result ≡ int_wrapping_div_euclid w128 number divisor }
{
    number.wrapping_div_euclid(divisor)
}

/// The low 64 bits.
fn low_bits(number: i128) -> i64
    ensures { result ≡ low_bits_of number }
{
    let low = number.cast_unsigned() % 18_446_744_073_709_551_616;
    (low as u64).cast_signed()
}
