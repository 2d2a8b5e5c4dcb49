//! Adjustments of whole numbers.

ghost use Rattle.std.specs.Prelude.{◌≡◌, ◌&&◌, IfOk, nat_le, if◌then◌else◌, option_copied, unwrap_or};
ghost use Rattle.std.specs.Int.{int_max, int_min};
ghost use Rattle.std.specs.List.{list_all};
ghost use Rattle.std.specs.Fmt.{signed_decimal};
ghost use Rattle.ft_props.specs.Properties.{adj, digits_value, is_digit, max_safe_integer, number_or_zero};

use crate::properties::Adjust;
use ft_base::OutOfMemory;
use ft_json::{GREATEST_COUNT, GREATEST_NUMBER, ValText};
use std::alloc::Global;

/// The first whole number that is too great for an adjusted value.
const TOO_GREAT: u64 = GREATEST_COUNT + 1;

// The number that the bytes spell, if they are all digits and it isn't too great, else 0.
fn safe_digits_value(digits: &[u8]) -> u64
    ensures { let value = digits_value 0 digits.now in
        result ≡ (if list_all is_digit digits.now && nat_le value max_safe_integer then value else 0) }
{
    let mut value = 0;
    for &digit in digits {
        if !digit.is_ascii_digit() {
            return 0;
        }
        value = (value * 10 + u64::from(digit - b'0')).min(TOO_GREAT);
    }
    if value < TOO_GREAT { value } else { 0 }
}

// The number on which an adjustment of the value works: 0 where there is no value, it is no whole
// number or its size is too great.
fn number_or_zero(value: Option<&ValText>) -> i64
    ensures { result ≡ number_or_zero (option_copied value.entry) }
{
    match value.map(|value| value.as_str().as_bytes()) {
        Some([b'-', digits @ ..]) => -(safe_digits_value(digits) as i64),
        Some(digits) => safe_digits_value(digits) as i64,
        None => 0,
    }
}

// The number, raised to the bound if there is one and it is below.
fn raised(number: i128, min: Option<i64>) -> i128
    ensures { result ≡ int_max (unwrap_or min number) number }
{
    match min {
        Some(min) => number.max(i128::from(min)),
        None => number,
    }
}

// The number, lowered to the bound if there is one and it is above.
fn lowered(number: i128, max: Option<i64>) -> i128
    ensures { result ≡ int_min (unwrap_or max number) number }
{
    match max {
        Some(max) => number.min(i128::from(max)),
        None => number,
    }
}

// The number with the adjustment made.
fn adjusted_number(number: i64, adjust: &Adjust) -> i64
    ensures { result ≡ adj number adjust.now }
{
    let sum = i128::from(number) + i128::from(adjust.delta);
    let bounded = lowered(raised(sum, adjust.min), adjust.max);
    bounded.clamp(-i128::from(GREATEST_NUMBER), i128::from(GREATEST_NUMBER)) as i64
}

/// The value with the adjustment made, where a value that is no whole number counts as 0.
pub fn adjusted_value(
    alloc: Global,
    value: Option<&ValText>,
    adjust: &Adjust,
) -> Result<ValText, OutOfMemory>
    ensures { let before = number_or_zero (option_copied value.entry) in
        IfOk result (λ after. after ≡ signed_decimal (adj before adjust.now)) }
{
    let number = adjusted_number(number_or_zero(value), adjust);
    ValText::new(alloc, number.to_string(alloc)?.as_str())
}
