//! The decimal digits at the front of a text.
ghost use Rattle.std.specs.Prelude.{◌≡◌, ◌+◌, ◌-◌, ◌*◌, ◌^◌, ◌<◌, ◌≤◌, ℕ, false, true, MatchOption, option_map};
ghost use Rattle.ufmt_parse_leaves.specs.Private.Digits.{FrontMagnitude, after_digits, after_minus, begins_minus, begins_digit, value_after};

use crate::sixteen_digits::split_sixteen;

/// An unsigned number that grows by decimal digits.
pub trait Magnitude: Copy {
    ghost value: { Self → ℕ };

    // The least number that is too large.
    ghost bound: { ℕ };

    /// A number of at most eight digits.
    fn from_few(few: u64) -> Self
        requires { few < 10 ^ 8 }
        ensures { (value result ≡ few) × (value result < bound) };

    /// The number with one digit more, or `None` if it is too large.
    fn with_digit(self, digit: u8) -> Option<Self>
        requires { digit < 10 }
        ensures { MatchOption result (bound ≤ value self * 10 + digit)
            (λ n. (value n ≡ value self * 10 + digit) × (value n < bound)) };

    /// Whether any sixteen digits more are not too many.
    fn has_room(self) -> bool
        ensures { result ≡ true → (value self + 1) * 10 ^ 16 ≤ bound };

    /// The number with sixteen digits more.
    fn with_sixteen(self, digits: u64) -> Self
        requires room { (value self + 1) * 10 ^ 16 ≤ bound }
        requires sixteen { digits < 10 ^ 16 }
        ensures { (value result ≡ value self * 10 ^ 16 + digits) × (value result < bound) };
}

impl Magnitude for u64 {
    ghost value = { λ n. n };

    ghost bound = { 2 ^ 64 };

    #[inline(always)]
    fn from_few(few: u64) -> u64 {
        few
    }

    // Only near the end of the range the sum is tested.
    #[inline(always)]
    fn with_digit(self, digit: u8) -> Option<u64> {
        if self < u64::MAX / 10 {
            Some(self * 10 + digit as u64)
        } else {
            self.checked_mul(10)?.checked_add(digit as u64)
        }
    }

    #[inline(always)]
    fn has_room(self) -> bool {
        self < u64::MAX / 10_000_000_000_000_000
    }

    #[inline(always)]
    fn with_sixteen(self, digits: u64) -> u64 {
        self * 10_000_000_000_000_000 + digits
    }
}

impl Magnitude for u128 {
    ghost value = { λ n. n };

    ghost bound = { 2 ^ 128 };

    #[inline(always)]
    fn from_few(few: u64) -> u128 {
        few as u128
    }

    // Only near the end of the range the sum is tested.
    #[inline(always)]
    fn with_digit(self, digit: u8) -> Option<u128> {
        if self < u128::MAX / 10 {
            Some(self * 10 + digit as u128)
        } else {
            self.checked_mul(10)?.checked_add(digit as u128)
        }
    }

    #[inline(always)]
    fn has_room(self) -> bool {
        self < u128::MAX / 10_000_000_000_000_000
    }

    #[inline(always)]
    fn with_sixteen(self, digits: u64) -> u128 {
        self * 10_000_000_000_000_000 + digits as u128
    }
}

/// The number that the digits at the front denote after those of `start`, if it isn't too large, and what
/// follows them.
#[inline(always)]
#[tactic(auto, using(crate::proofs::DecimalFronts::value_after_ge))]
pub(crate) fn split_more<N: Magnitude>(start: N, input: &[u8]) -> Option<(N, &[u8])>
    requires { N.value start < N.bound }
    ensures { MatchOption result (N.bound ≤ value_after (N.value start) input.now)
        (λ found. (N.value found.0 ≡ value_after (N.value start) input.now) × (N.value found.0 < N.bound)
        × (found.1.now ≡ after_digits input.now)) }
{
    let mut n = start;
    let mut rest = input;
    'digits: while let Some((&byte, after)) = rest.split_first() {
        if !byte.is_ascii_digit() {
            break;
        }
        n = n.with_digit(byte - b'0')?;
        rest = after;
    }
    Some((n, rest))
}

// `split_more`, sixteen digits at a time as long as there are so many.
#[inline(always)]
fn split_many<N: Magnitude>(start: N, input: &[u8]) -> Option<(N, &[u8])>
    requires { N.value start < N.bound }
    ensures { MatchOption result (N.bound ≤ value_after (N.value start) input.now)
        (λ found. (N.value found.0 ≡ value_after (N.value start) input.now) × (N.value found.0 < N.bound)
        × (found.1.now ≡ after_digits input.now)) }
{
    let mut n = start;
    let mut rest = input;
    'sixteens: while n.has_room() {
        match split_sixteen(rest) {
            None => break,
            Some((digits, after)) => {
                n = n.with_sixteen(digits);
                rest = after;
            }
        }
    }
    split_more(n, rest)
}

// How many digits after the first are looked for one by one. So nineteen and twenty digits are three, sixteen
// and at most one, and most numbers that aren't long need no loop.
#[inline(always)]
fn few_digits(is_long: bool) -> usize
    ensures { result ≤ 7 }
{
    if is_long { 2 } else { 7 }
}

// The same after one digit. Most numbers are short, so a few digits are looked for first, one by one.
#[inline(always)]
fn split_digits<N: Magnitude>(start: u64, input: &[u8], is_long: bool) -> Option<(N, &[u8])>
    requires { start < 10 }
    ensures { MatchOption result (N.bound ≤ value_after start input.now)
        (λ found. (N.value found.0 ≡ value_after start input.now) × (N.value found.0 < N.bound)
        × (found.1.now ≡ after_digits input.now)) }
{
    let few = few_digits(is_long);
    // So the length isn't tested for each of these.
    if input.len() < few {
        return split_more(N::from_few(start), input);
    }
    let mut n = start;
    let mut rest = input;
    'few: for _ in 0..few {
        match rest.split_first() {
            None => break,
            Some((&byte, after)) => {
                if !byte.is_ascii_digit() {
                    return Some((N::from_few(n), rest));
                }
                n = n * 10 + (byte - b'0') as u64;
                rest = after;
            }
        }
    }
    if is_long {
        split_many(N::from_few(n), rest)
    } else {
        split_more(N::from_few(n), rest)
    }
}

// What follows a first digit 0: it is no number's before another digit.
#[inline(always)]
fn split_zero<N: Magnitude>(after: &[u8]) -> Option<(N, &[u8])>
    ensures { MatchOption result (begins_digit after.now ≡ true)
        (λ found. (begins_digit after.now ≡ false) × (N.value found.0 ≡ 0) × (N.value found.0 < N.bound)
        × (found.1.now ≡ after.now)) }
{
    if let Some(&next) = after.first()
        && next.is_ascii_digit()
    {
        return None;
    }
    Some((N::from_few(0), after))
}

/// The magnitude at the front, if it isn't too large, and what follows its digits: no zero before another
/// digit. Numbers of more than ten digits are fast only if `is_long` says that they may come.
#[inline(always)]
pub(crate) fn split_magnitude<N: Magnitude>(input: &[u8], is_long: bool) -> Option<(N, &[u8])>
    ensures { FrontMagnitude (λ n. n < N.bound) input.now (option_map (λ found. (N.value found.0, found.1.now)) result) }
{
    match input.split_first() {
        None => None,
        Some((&first, after)) => {
            if !first.is_ascii_digit() {
                return None;
            }
            if first == b'0' {
                return split_zero(after);
            }
            split_digits((first - b'0') as u64, after, is_long)
        }
    }
}

/// Whether `-` comes first, and what follows it.
#[inline(always)]
pub(crate) fn split_minus(input: &[u8]) -> (bool, &[u8])
    ensures minus { result.0 ≡ begins_minus input.now }
    ensures after { result.1.now ≡ after_minus input.now }
{
    match input {
        [b'-', after @ ..] => (true, after),
        _ => (false, input),
    }
}
