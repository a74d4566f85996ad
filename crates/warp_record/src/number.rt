//! Words that are numbers, read and written. Each number has one spelling: no leading zero, no `+`, no `-0`.
ghost use Rattle.std.specs.Prelude.{◌≡◌, ℕ, ℤ, List, ◌+◌, ◌-◌, ◌*◌, ◌<◌, ◌≤◌, ◌^◌, ◌∷◌, ◌++◌, take, drop, IfSome};
ghost use Rattle.std.specs.Prelude.{IfNone, SomeIff, IsTrue, ◌↔◌, length, slice_index, FitsSigned, decimal, vec_len};
ghost use Rattle.std.specs.Prelude.{vec_capacity, true, if◌then◌else◌};
ghost use Rattle.std.specs.Char.{digit_value};
ghost use Rattle.std.specs.Fmt.{signed_decimal};
ghost use Rattle.std.specs.Int.{w64};
ghost use Rattle.std.specs.Str.Parse.{AllDigits, digits_value};

use itoa::{Buffer, Integer, write_digits};

/// The end of the numbers that `append_u32` writes as one block.
pub(crate) const BLOCK_END: u32 = 100_000_000;

/// Where the text of a number of 64 bits ends in a block: in front of it is room for the text and a space.
const WIDE_END: usize = 22;

/// How many bytes are copied for a space and a number of 64 bits, which has up to 20 bytes.
const WIDE: usize = 24;

/// How many bytes a block has, so that wherever a number of it starts, `WIDE` bytes are there to copy.
const WIDE_BLOCK: usize = 48;

/// The most digits that are read without a look at overflow: no number of so many digits overflows 64 bits.
pub(crate) const FEW_DIGITS: usize = 18;

/// The digit that the byte is.
#[inline(always)]
pub(crate) fn digit(byte: u8) -> Option<u64>
    ensures { SomeIff result (digit_value byte < 10) (digit_value byte) }
{
    let value = u64::from(byte).wrapping_sub(u64::from(b'0'));
    if value > 9 {
        return None;
    }
    Some(value)
}

/// The number that these digits write, of which there are few; 0 where there are none.
#[inline(always)]
fn few_digits(word: &[u8]) -> Option<u64>
    requires { length word.now ≤ FEW_DIGITS }
    ensures { SomeIff result (AllDigits 10 word.now) (digits_value 10 word.now) }
{
    let mut number = 0;
    for byte in word {
        let next = digit(*byte)?;
        number = number * 10 + next;
    }
    Some(number)
}

/// The number with one more digit, where the byte is a digit and it fits.
fn with_digit(number: u64, byte: u8) -> Option<u64>
    ensures { SomeIff result ((digit_value byte < 10) × (number * 10 + digit_value byte < 2 ^ 64))
        (number * 10 + digit_value byte) }
{
    if byte < b'0' || b'9' < byte {
        return None;
    }
    number.checked_mul(10)?.checked_add(u64::from(byte - b'0'))
}

/// The number that these digits write, however many; 0 where there are none.
#[inline(never)]
fn many_digits(word: &[u8]) -> Option<u64>
    ensures { SomeIff result (AllDigits 10 word.now × (digits_value 10 word.now < 2 ^ 64)) (digits_value 10 word.now) }
{
    let mut number = 0;
    for byte in word {
        number = with_digit(number, *byte)?;
    }
    Some(number)
}

/// The number that these digits write, leading zeros or none; 0 where there are none.
#[inline(always)]
fn digits(word: &[u8]) -> Option<u64>
    ensures { SomeIff result (AllDigits 10 word.now × (digits_value 10 word.now < 2 ^ 64)) (digits_value 10 word.now) }
{
    if word.len() <= FEW_DIGITS {
        return few_digits(word);
    }
    many_digits(word)
}

/// Whether the word has a zero in front of another byte.
#[inline(always)]
pub(crate) fn is_padded(word: &[u8]) -> bool
    ensures { IsTrue result ↔ ((1 < length word.now) × (slice_index word.now 0 ≡ 48)) }
{
    // Seldom is the first one a zero, so it is looked at first.
    if word.is_empty() {
        return false;
    }
    word[0] == b'0' && word.len() > 1
}

/// The number up to `max` that the word spells.
#[inline(always)]
pub fn read_number(word: &[u8], max: u64) -> Option<u64>
    ensures found { IfSome result (λ number. (number ≤ max) × (word.now ≡ decimal number)) }
    ensures none { IfNone result ((number : ℕ) → number ≤ max → word.now ≡ decimal number → ⊥) }
{
    if word.is_empty() {
        return None;
    }
    if is_padded(word) {
        return None;
    }
    let number = digits(word)?;
    if number <= max { Some(number) } else { None }
}

/// The number up to `max` that the word spells, which fits 32 bits; `None` where it spells none.
pub fn read_u32(word: &[u8], max: u32) -> Option<u32>
    ensures found { IfSome result (λ number. (number ≤ max) × (word.now ≡ decimal number)) }
    ensures none { IfNone result ((number : ℕ) → number ≤ max → word.now ≡ decimal number → ⊥) }
{
    Some(read_number(word, u64::from(max))? as u32)
}

/// The number of this size, below 0 where `minus` says so. It is compiled to a choice of two values without a branch,
/// since nothing foretells a sign.
#[inline(always)]
pub(crate) fn with_sign(size: u64, minus: bool) -> i64
    requires sign { minus ≡ true → 0 < size }
    requires fits { size < 2 ^ 63 + (if minus then 1 else 0) }
    ensures { signed_decimal result ≡ (if minus then 45 ∷ decimal size else decimal size) }
{
    if minus {
        -((size - 1) as i64) - 1
    } else {
        size as i64
    }
}

/// The number that the word spells, which has few bytes.
#[inline(always)]
fn read_few(word: &[u8]) -> Option<u64>
    requires { length word.now ≤ FEW_DIGITS }
    ensures found { IfSome result (λ number. (number < 10 ^ FEW_DIGITS) × (word.now ≡ decimal number)) }
    ensures none { IfNone result ((number : ℕ) → number < 2 ^ 64 → word.now ≡ decimal number → ⊥) }
{
    if word.is_empty() {
        return None;
    }
    if is_padded(word) {
        return None;
    }
    let number = few_digits(word)?;
    Some(number)
}

/// The signed number that the word spells, however long.
#[inline(never)]
fn read_long_int(word: &[u8]) -> Option<i64>
    ensures found { IfSome result (λ number. word.now ≡ signed_decimal number) }
    ensures none { IfNone result ((number : ℤ) → FitsSigned w64 number → word.now ≡ signed_decimal number → ⊥) }
{
    match word {
        [b'-', size @ ..] => match read_number(size, 1 << 63)? {
            0 => None,
            size => Some(-((size - 1) as i64) - 1),
        },
        _ => Some(read_number(word, i64::MAX as u64)? as i64),
    }
}

/// The signed number that the word spells.
#[inline(always)]
pub fn read_int(word: &[u8]) -> Option<i64>
    ensures found { IfSome result (λ number. word.now ≡ signed_decimal number) }
    ensures none { IfNone result ((number : ℤ) → FitsSigned w64 number → word.now ≡ signed_decimal number → ⊥) }
{
    if word.len() > FEW_DIGITS {
        return read_long_int(word);
    }
    if word.is_empty() {
        return None;
    }
    let minus = word[0] == b'-';
    let size = read_few(&word[usize::from(minus)..])?;
    if size == 0 {
        return if minus { None } else { Some(0) };
    }
    Some(with_sign(size, minus))
}

/// Appends the text, for which there is room.
#[inline(always)]
pub fn append(out: &mut Vec<u8>, text: &[u8])
    requires { vec_len out.old + length text.now ≤ vec_capacity out.old }
    ensures items { out.new.items ≡ out.old.items ++ text.now }
    ensures len { vec_len out.new ≡ vec_len out.old + length text.now }
    ensures capacity { vec_capacity out.new ≡ vec_capacity out.old }
{
    for byte in text {
        out.push_reserved(*byte);
    }
}

/// Appends a space and the number, for which there is room.
pub fn append_number<I: Integer>(out: &mut Vec<u8>, number: I)
    requires { vec_len out.old + (I.MAX_STR_LEN + 1) ≤ vec_capacity out.old }
    ensures items { out.new.items ≡ out.old.items ++ 32 ∷ I.text number }
    ensures len { vec_len out.new ≤ vec_len out.old + (I.MAX_STR_LEN + 1) }
    ensures capacity { vec_capacity out.new ≡ vec_capacity out.old }
{
    out.push_reserved(b' ');
    let mut buffer = Buffer::new();
    append(out, buffer.format(number).as_bytes());
}

/// Appends the number, for which there is room for eight bytes.
#[inline(always)]
fn append_block(out: &mut Vec<u8>, number: u32)
    requires fits { number < BLOCK_END }
    requires room { vec_len out.old + 8 ≤ vec_capacity out.old }
    ensures items { out.new.items ≡ out.old.items ++ decimal number }
    ensures len { vec_len out.new ≤ vec_len out.old + 8 }
    ensures capacity { vec_capacity out.new ≡ vec_capacity out.old }
{
    let mut block = [0; 16];
    let start = write_digits(u64::from(number), &mut block, 8);
    append(out, &block[start..8]);
}

/// Appends a space and the number, for which there is room. It is quick where the number has up to eight digits.
#[inline(always)]
pub(crate) fn append_u32(out: &mut Vec<u8>, number: u32)
    requires { vec_len out.old + 11 ≤ vec_capacity out.old }
    ensures items { out.new.items ≡ out.old.items ++ 32 ∷ decimal number }
    ensures len { vec_len out.new ≤ vec_len out.old + 11 }
    ensures capacity { vec_capacity out.new ≡ vec_capacity out.old }
{
    if number >= BLOCK_END {
        append_number(out, number);
        return;
    }
    out.push_reserved(b' ');
    append_block(out, number);
}

/// Writes the word into the block so that it ends at `end`, and returns where it starts.
#[inline(always)]
pub(crate) fn write_word(word: &[u8], block: &mut [u8], end: usize) -> usize
    requires { (length word.now ≤ end) × (end ≤ length block.old) }
    ensures start { result + length word.now ≡ end }
    ensures written { drop result block.new ≡ word.now ++ drop end block.old }
    ensures len { length block.new ≡ length block.old }
{
    let start = end - word.len();
    block[start..end].copy_from_slice(word);
    start
}

/// Writes the number's text into the block so that it ends at `end`, and returns where it starts.
#[inline(always)]
pub(crate) fn write_int(number: i64, block: &mut [u8], end: usize) -> usize
    requires { (20 ≤ end) × (end ≤ length block.old) }
    ensures start { result + length (signed_decimal number) ≡ end }
    ensures short { end ≤ result + 20 }
    ensures written { drop result block.new ≡ signed_decimal number ++ drop end block.old }
    ensures len { length block.new ≡ length block.old }
{
    let start = write_digits(number.unsigned_abs(), block, end);
    if number >= 0 {
        return start;
    }
    block[start - 1] = b'-';
    start - 1
}

/// Appends what stands in the block from `start` to `end`. It copies `most` bytes, for which there is room and of which
/// it leaves these.
#[inline(always)]
pub(crate) fn append_from(out: &mut Vec<u8>, block: &[u8], start: usize, end: usize, most: usize)
    requires place { (start ≤ end) × (end ≤ start + most) × (start + most ≤ length block.now) }
    requires room { vec_len out.old + most ≤ vec_capacity out.old }
    ensures items { (text rest : List ℕ) → drop start block.now ≡ text ++ rest → start + length text ≡ end →
        out.new.items ≡ out.old.items ++ text }
    ensures len { vec_len out.new ≤ vec_len out.old + most }
    ensures capacity { vec_capacity out.old ≤ vec_capacity out.new }
{
    // There is room. Told so, the copy below calls nothing, and whoever appends a block saves no registers.
    if out.capacity() - out.len() < most {
        return;
    }
    let length = out.len() + (end - start);
    let _ = out.extend_from_slice(&block[start..start + most]);
    out.truncate(length);
}

/// Appends a space and the text that stands in the block up to `WIDE_END`, for which there is room.
#[inline(always)]
fn append_wide(out: &mut Vec<u8>, block: &mut [u8; WIDE_BLOCK], start: usize)
    requires place { (1 ≤ start) × (start ≤ WIDE_END) }
    requires room { vec_len out.old + WIDE ≤ vec_capacity out.old }
    ensures items { out.new.items ≡ out.old.items ++ 32 ∷ take (WIDE_END - start) (drop start block.old) }
    ensures len { vec_len out.new ≤ vec_len out.old + WIDE }
    ensures capacity { vec_capacity out.new ≡ vec_capacity out.old }
{
    let first = start - 1;
    block[first] = b' ';
    append(out, &block[first..WIDE_END]);
}

/// Appends a space and the number, for which there is room.
#[inline(always)]
pub(crate) fn append_int(out: &mut Vec<u8>, number: i64)
    requires { vec_len out.old + 24 ≤ vec_capacity out.old }
    ensures items { out.new.items ≡ out.old.items ++ 32 ∷ signed_decimal number }
    ensures len { vec_len out.new ≤ vec_len out.old + 24 }
    ensures capacity { vec_capacity out.new ≡ vec_capacity out.old }
{
    let mut block = [0; WIDE_BLOCK];
    let start = write_int(number, &mut block, WIDE_END);
    append_wide(out, &mut block, start);
}

/// Appends a space and the count, for which there is room.
#[inline(always)]
pub(crate) fn append_u64(out: &mut Vec<u8>, count: u64)
    requires { vec_len out.old + 24 ≤ vec_capacity out.old }
    ensures items { out.new.items ≡ out.old.items ++ 32 ∷ decimal count }
    ensures len { vec_len out.new ≤ vec_len out.old + 24 }
    ensures capacity { vec_capacity out.new ≡ vec_capacity out.old }
{
    let mut block = [0; WIDE_BLOCK];
    let start = write_digits(count, &mut block, WIDE_END);
    append_wide(out, &mut block, start);
}
