//! Decimal numbers in cells and in conditions.
ghost use Rattle.std.specs.Prelude.{◌≡◌, ◌↔◌, ◌<◌, ◌≤◌, ◌+◌, ◌*◌, ◌^◌, ◌-ℤ◌, ◌+ℤ◌, ℕ, ℤ, [], drop, get_or, length, pos, IfSome, IfNone};
ghost use Rattle.std.specs.Bool.{IsTrue};
ghost use Rattle.std.specs.List.{prefix_len};
ghost use Rattle.std.specs.Char.{is_ascii_digit};
ghost use Rattle.std.specs.Ordering.{int_cmp, nat_cmp};
ghost use Rattle.std.specs.Str.Parse.{AllDigits, starts_with_minus, without_leading_sign};
ghost use Rattle.files_condition.specs.Numbers.{Decimal, IsNumber, IsPower, behind_digits, behind_fraction, digits_in, fraction_in, order_of, digits, up, down};
ghost use Rattle.files_condition.specs.Padded.{digits_of, is_zero, padded_cmp, zeros_of};

use std::cmp::Ordering;
use std::marker::Model;

/// A decimal number. The order of two is exact, however many digits they have.
#[derive(Drop)]
pub struct Number<'a> {
    is_negative: bool,
    // The digits before the point, and those after it.
    whole: &'a [u8],
    fraction: &'a [u8],
    // The power of ten after an `e`.
    power: i32,
}

/// Returns a text without its sign, if it has one.
fn without_sign(text: &[u8]) -> &[u8]
    ensures { result.now ≡ without_leading_sign text.now }
{
    match text.first() {
        Some(b'-' | b'+') => &text[1..],
        _ => text,
    }
}

/// Returns how many digits a text begins with.
fn digits(text: &[u8]) -> usize
    ensures count { result ≡ prefix_len is_ascii_digit text.now }
    ensures within { result ≤ length text.now }
{
    text.iter().take_while(|byte| byte.is_ascii_digit()).count()
}

/// Returns the digits that a text begins with, and what comes after.
fn split_digits(text: &[u8]) -> (&[u8], &[u8])
    ensures digits { result.0.now ≡ digits_in text.now }
    ensures behind { result.1.now ≡ behind_digits text.now }
    ensures len { length result.0.now + length result.1.now ≡ length text.now }
    ensures all { AllDigits 10 result.0.now }
{
    let count = digits(text);
    (&text[..count], &text[count..])
}

/// Returns the digits after a point, if it is next, and what comes after these.
fn split_fraction(text: &[u8]) -> (&[u8], &[u8])
    ensures digits { result.0.now ≡ fraction_in text.now }
    ensures behind { result.1.now ≡ behind_fraction text.now }
    ensures len { length result.0.now ≤ length text.now }
    ensures all { AllDigits 10 result.0.now }
{
    match text.first() {
        Some(b'.') => split_digits(&text[1..]),
        _ => (b"", text),
    }
}

/// Returns the power of ten after the digits of a number.
fn power_of(text: &[u8]) -> Option<i32>
    ensures some { IfSome result (IsPower text.now) }
    ensures none { IfNone result (¬ ((power : ℤ) × IsPower text.now power)) }
{
    match text.first() {
        None => Some(0),
        Some(b'e' | b'E') => match str::from_utf8(&text[1..]) {
            Ok(power) => power.parse::<i32>().ok(),
            Err(_) => None,
        },
        Some(_) => None,
    }
}

/// Returns how many zeros digits begin with.
fn zeros(digits: &[u8]) -> usize
    ensures count { result ≡ prefix_len is_zero digits.now }
    ensures within { result ≤ length digits.now }
{
    digits.iter().take_while(|byte| **byte == b'0').count()
}

/// Returns the order of two powers of ten.
fn order_of_powers(first: i128, second: i128) -> Ordering
    ensures { result ≡ int_cmp first second }
{
    first.cmp(&second)
}

impl<'a> Model for Number<'a> {
    ghost use Rattle.std.specs.Prelude.{◌+◌, ◌≤◌, ◌++◌, length};
    ghost use Rattle.std.specs.Str.Parse.{AllDigits};
    ghost use Rattle.std.below.core.specs.declared.int.usize.TheConstants.{MAX};
    ghost use Rattle.files_condition.specs.Numbers.{Decimal};

    ghost Value = { Decimal };

    ghost view = { λ number. record {
      negative = number.is_negative;
      whole = number.whole.now;
      fraction = number.fraction.now;
      power = number.power;
    } };

    ghost invariant = { λ number. (length number.whole.now + length number.fraction.now ≤ MAX)
        × AllDigits 10 (number.whole.now ++ number.fraction.now) };
}

impl<'a> Number<'a> {
    /// Returns the number that a text is, as `-1`, `.5` or `2.5e3`, or `None` if it is none.
    pub fn of(text: &'a [u8]) -> Option<Number<'a>>
        ensures some { IfSome result (IsNumber text.now) }
        ensures none { IfNone result (¬ ((number : Decimal) × IsNumber text.now number)) }
    {
        let (whole, behind) = split_digits(without_sign(text));
        let (fraction, behind) = split_fraction(behind);
        if whole.is_empty() && fraction.is_empty() {
            return None;
        }
        let power = power_of(behind)?;
        Some(Number {
            is_negative: text.starts_with(b"-"),
            whole,
            fraction,
            power,
        })
    }

    /// Returns how many digits there are.
    fn len(&self) -> usize
        ensures { result ≡ length (digits_of self.now) }
    {
        self.whole.len() + self.fraction.len()
    }

    /// Returns how many digits come before the first one above 0.
    fn zeros(&self) -> usize
        ensures count { result ≡ zeros_of self.now }
        ensures within { result ≤ length (digits_of self.now) }
        ensures digits { AllDigits 10 (digits_of self.now) }
    {
        let count = zeros(self.whole);
        if count < self.whole.len() {
            return count;
        }
        count + zeros(self.fraction)
    }

    /// Returns the digit that comes some places after another, and 0 if none does.
    fn digit(&self, from: usize, place: usize) -> u8
        ensures { result ≡ get_or (digits_of self.now) (from + place) 48 }
    {
        let at = from.saturating_add(place);
        if at < self.whole.len() {
            return self.whole[at];
        }
        let digit = self.fraction.get(at - self.whole.len());
        digit.copied().unwrap_or(b'0')
    }

    /// Returns the order of the digits of two numbers from places on.
    fn order_of_digits(&self, from: usize, other: &Number<'_>, other_from: usize) -> Ordering
        requires from { from ≤ length (digits_of self.now) }
        requires other { other_from ≤ length (digits_of other.now) }
        ensures { result ≡ padded_cmp (drop from (digits_of self.now))
            (drop other_from (digits_of other.now)) }
    {
        let count = (self.len() - from).max(other.len() - other_from);
        for place in 0..count {
            let first = self.digit(from, place);
            match first.cmp(&other.digit(other_from, place)) {
                Ordering::Equal => {}
                order => return order,
            }
        }
        Ordering::Equal
    }

    /// Returns the power of ten above the first of the last `digits` digits.
    fn top(&self, digits: usize) -> i128
        ensures { result ≡ (pos digits +ℤ self.now.power) -ℤ pos (length self.now.fraction) }
    {
        digits as i128 + i128::from(self.power) - self.fraction.len() as i128
    }

    /// Returns the order of two numbers without their signs.
    fn order_of_sizes(&self, other: &Number<'_>) -> Ordering
        ensures { result ≡ nat_cmp (digits self.now * 10 ^ (up self.now + down other.now))
            (digits other.now * 10 ^ (up other.now + down self.now)) }
    {
        let (zeros, others) = (self.zeros(), other.zeros());
        let (first, second) = (self.len() - zeros, other.len() - others);
        if first.min(second) == 0 {
            return first.cmp(&second);
        }
        match order_of_powers(self.top(first), other.top(second)) {
            Ordering::Equal => self.order_of_digits(zeros, other, others),
            order => order,
        }
    }

    /// Returns whether the number is 0.
    fn is_zero(&self) -> bool
        ensures { IsTrue result ↔ (digits self.now ≡ 0) }
    {
        self.zeros() == self.len()
    }

    /// Returns whether two numbers are 0.
    fn are_zero(&self, other: &Number<'_>) -> bool
        ensures { IsTrue result ↔ ((digits self.now ≡ 0) × (digits other.now ≡ 0)) }
    {
        self.is_zero() && other.is_zero()
    }

    /// Returns the order of two numbers.
    pub fn order(&self, other: &Number<'_>) -> Ordering
        ensures { result ≡ order_of self.now other.now }
    {
        if self.is_negative == other.is_negative {
            if self.is_negative {
                return other.order_of_sizes(self);
            }
            return self.order_of_sizes(other);
        }
        if self.are_zero(other) {
            return Ordering::Equal;
        }
        if self.is_negative {
            return Ordering::Less;
        }
        Ordering::Greater
    }
}
