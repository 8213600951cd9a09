// The numbers that a text writes.
ghost use Rattle.std.specs.Prelude.{◌≡◌, ℕ, ◌<◌, Bool, true, false, length, get_or, is_some, Some, Option, IfSome, refl};
ghost use Rattle.text.specs.Text.{blank, front, past, until, trimmed};
ghost use Rattle.text.specs.Numbers.{signed64, natural32, digits_in, number_in, Leads, ends_number, Padded};

use crate::blanks::after_blanks;

// A kind of number.
pub trait Number: Drop {
    // Which number a minus or none and a magnitude make, if any.
    ghost kind: { Bool → ℕ → Option Self };

    fn from_parts(negative: bool, magnitude: u64) -> Option<Self>
        ensures { result ≡ kind negative magnitude };

    // 0 is of every kind.
    ghost zero: { is_some (kind false 0) ≡ true };
}

impl Number for i64 {
    ghost kind = { signed64 };

    ghost zero = { refl };

    fn from_parts(negative: bool, magnitude: u64) -> Option<i64> {
        if negative {
            0i64.checked_sub_unsigned(magnitude)
        } else {
            i64::try_from(magnitude).ok()
        }
    }
}

impl Number for u32 {
    ghost kind = { natural32 };

    ghost zero = { refl };

    fn from_parts(negative: bool, magnitude: u64) -> Option<u32> {
        if negative {
            None
        } else {
            u32::try_from(magnitude).ok()
        }
    }
}

// The greatest magnitude of any kind of number.
const GREATEST: u64 = 1 << 63;

// The number that the text's digits write. None where something else stands in it, or nothing at all, or where the
// number is above 2 ^ 63.
// Kept: read by hand, since `parse` takes a plus, which is no number here.
fn magnitude(text: &[u8]) -> Option<u64>
    ensures { result ≡ digits_in text.now }
{
    if text.is_empty() {
        return None;
    }
    let mut value = 0u64;
    for digit in text {
        if !digit.is_ascii_digit() {
            return None;
        }
        value = value
            .checked_mul(10)?
            .checked_add(u64::from(*digit - b'0'))?;
    }
    (value <= GREATEST).then_some(value)
}

// The most that a number of so few digits may be that another digit still leaves it below any limit.
const SMALL: u64 = 99_999_999_999_999_999;

// The number that the digits at the front of a text write, and what follows them. None where there are none, or so many
// that they want a closer look.
fn leading(text: &[u8]) -> Option<(u64, &[u8])>
    ensures { IfSome result (λ r. Leads text.now r.0 r.1.now) }
{
    let mut value = 0;
    let mut rest = text;
    while let [digit, behind @ ..] = rest
        && digit.is_ascii_digit()
    {
        if value > SMALL {
            return None;
        }
        value = value * 10 + u64::from(*digit - b'0');
        rest = behind;
    }
    if rest.len() == text.len() {
        return None;
    }
    Some((value, rest))
}

// The number that the text writes.
pub fn number_in<T: Number>(text: &[u8]) -> Option<T>
    ensures { result ≡ number_in T.Number.kind text.now }
{
    match text {
        [b'-', digits @ ..] => T::from_parts(true, magnitude(digits)?),
        digits => T::from_parts(false, magnitude(digits)?),
    }
}

// What follows the blanks at the text's front. Few numbers have any, so it is kept out of the way of the others.
#[inline(never)]
fn past_blanks(text: &[u8]) -> &[u8]
    ensures { result.now ≡ past blank text.now }
{
    after_blanks(text)
}

// The text from its first byte on that is no blank.
fn solid_front(text: &[u8]) -> &[u8]
    ensures { result.now ≡ past blank text.now }
{
    if matches!(text, [b' ' | b'\t', ..]) {
        past_blanks(text)
    } else {
        text
    }
}

// What stands behind the blanks at the front of what is left, where it is `END` or nothing.
fn end_behind_blanks<const END: u8>(left: &[u8]) -> Option<&[u8]>
    requires { blank END ≡ false }
    ensures { IfSome result (λ rest. (rest.now ≡ past blank left.now) × (0 < length rest.now → get_or rest.now 0 0 ≡ END)) }
{
    match left {
        [] => Some(left),
        [byte, ..] if *byte == END => Some(left),
        _ => match past_blanks(left) {
            [byte, ..] if *byte != END => None,
            rest => Some(rest),
        },
    }
}

// The number that the text up to the next `END` writes in digits, with blanks behind them at most, and what follows. None where it
// wants a closer look.
fn plain_digits<const END: u8>(text: &[u8]) -> Option<(u64, &[u8])>
    requires ends { ends_number END ≡ true }
    requires solid { blank END ≡ false }
    ensures { IfSome result (λ r. Padded END text.now r.0 r.1.now) }
{
    let (value, left) = leading(text)?;
    Some((value, end_behind_blanks::<END>(left)?))
}

// The same of digits with at most one minus before them, and blanks before that, as a number.
pub(crate) fn plain_number<T: Number, const END: u8>(text: &[u8]) -> Option<(T, &[u8])>
    requires ends { ends_number END ≡ true }
    requires solid { blank END ≡ false }
    ensures value { IfSome result (λ r. number_in T.Number.kind (trimmed (front (until END) text.now)) ≡ Some r.0) }
    ensures rest { IfSome result (λ r. r.1.now ≡ past (until END) text.now) }
{
    let solid = solid_front(text);
    match solid.strip_prefix(b"-") {
        Some(digits) => {
            let (magnitude, rest) = plain_digits::<END>(digits)?;
            Some((T::from_parts(true, magnitude)?, rest))
        }
        None => {
            let (magnitude, rest) = plain_digits::<END>(solid)?;
            Some((T::from_parts(false, magnitude)?, rest))
        }
    }
}
