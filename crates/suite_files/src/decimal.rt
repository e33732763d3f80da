//! Decimal numbers of 128 bits from their texts (BSON Decimal128; IEEE 754-2008, decimal128 in the binary encoding).

/// What is added to an exponent before it is stored.
const BIAS: i32 = 6176;

/// The greatest stored exponent.
const MOST: i32 = 12_287;

/// Above the greatest coefficient, of 34 nines.
const ABOVE: u128 = 10_000_000_000_000_000_000_000_000_000_000_000;

const SIGN: u128 = 1 << 127;

const INFINITY: u128 = 0x78 << 120;

const NAN: u128 = 0x7c << 120;

/// The bytes, lowest first, of the number whose text this is, in the form in which numbers are printed: nothing is rounded.
pub fn decimal_bytes(text: &str) -> Option<[u8; 16]> {
    let (sign, rest) = match text.strip_prefix('-') {
        Some(rest) => (SIGN, rest),
        None => (0, text),
    };
    let bits = match rest {
        "Infinity" => INFINITY,
        "NaN" => NAN,
        _ => finite(rest)?,
    };
    Some((sign | bits).to_le_bytes())
}

/// The bits of a finite number without its sign.
fn finite(text: &str) -> Option<u128> {
    let (digits, exponent) = match text.split_once('E') {
        Some((digits, exponent)) => (digits, exponent.parse::<i32>().ok()?),
        None => (text, 0),
    };
    let (whole, fraction) = match digits.split_once('.') {
        Some((whole, fraction)) => (whole, fraction),
        None => (digits, ""),
    };
    let coefficient = appended(appended(0, whole)?, fraction)?;
    let places = i32::try_from(fraction.len()).ok()?;
    let stored = exponent.checked_sub(places)?.checked_add(BIAS)?;
    if stored < 0 || stored > MOST || whole.is_empty() {
        return None;
    }
    Some((stored as u128) << 113 | coefficient)
}

/// The coefficient with further digits behind it.
fn appended(coefficient: u128, digits: &str) -> Option<u128> {
    let mut sum = coefficient;
    for byte in digits.as_bytes() {
        if !byte.is_ascii_digit() {
            return None;
        }
        sum = sum.checked_mul(10)?.checked_add(u128::from(*byte - b'0'))?;
        if sum >= ABOVE {
            return None;
        }
    }
    Some(sum)
}
