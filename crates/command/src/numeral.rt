// Numbers as they are written: decimal, no leading zeros, no minus before 0.
ghost use Rattle.std.specs.Prelude.{◌≡◌, ℕ, ◌+◌, ◌-◌, ◌*◌, ◌<◌, ◌≤◌, Bool, true, false, List, ◌∷◌, length, decimal, Decides, slice_index};
ghost use Rattle.std.specs.Fmt.{signed_decimal};
ghost use Rattle.command.specs.Fields.{Unblank};
ghost use Rattle.command.specs.WithoutLemmas.{unblank_natural, unblank_signed};
ghost use Rattle.command.specs.Reads.{Reads};
ghost use Rattle.command.specs.Written.{NumberFits, LiteralFits};

const MOST_NATURAL: u64 = 99_999_999;

const MOST_POSITIVE: u64 = 9_223_372_036_854_775_807;

const MOST_NEGATIVE: u64 = 9_223_372_036_854_775_808;

// The number with one digit more, if the byte is a digit and the number is at most `most`.
fn appended(value: u64, byte: u8, most: u64) -> Option<u64>
    ensures { Reads (λ v. (48 ≤ byte) × (byte ≤ 57) × (v ≡ value * 10 + (byte - 48)) × (v ≤ most)) result }
{
    match byte {
        b'0'..=b'9' => {
            let more = value.checked_mul(10)?.checked_add(u64::from(byte - b'0'))?;
            Some(more).filter(|more| *more <= most)
        }
        _ => None,
    }
}

fn has_leading_zero(digits: &[u8]) -> bool
    ensures { Decides result ((1 < length digits.now) × (slice_index digits.now 0 ≡ 48)) }
{
    digits.len() > 1 && digits[0] == b'0'
}

// The number, at most `most`, that the digits write. Digit by digit, since the library's `parse` also takes a plus and leading zeros.
fn magnitude(digits: &[u8], most: u64) -> Option<u64>
    ensures { Reads (λ n. (n ≤ most) × (decimal n ≡ digits.now)) result }
{
    if digits.is_empty() {
        return None;
    }
    if has_leading_zero(digits) {
        return None;
    }
    let mut value: u64 = 0;
    for byte in digits {
        value = appended(value, *byte, most)?;
    }
    Some(value)
}

// The number that stands after a minus: not 0, and at most 2^63.
fn below_zero(digits: &[u8]) -> Option<i64>
    ensures { Reads (λ z. LiteralFits true z × (signed_decimal z ≡ 45 ∷ digits.now)) result }
{
    match magnitude(digits, MOST_NEGATIVE)? {
        0 => None,
        n => 0i64.checked_sub_unsigned(n),
    }
}

// The numbers that operands are: what is written of each, and which ones fit an operand that is used, or is not.
pub trait Numeral: Sized {
    ghost written: { Self → List ℕ };

    ghost fits: { Bool → Self → Type 0 };

    // What stands for an operand that is not used.
    fn unused() -> Self
        ensures { fits false result };

    // The number that is spelled so.
    fn read(spelling: &[u8]) -> Option<Self>
        ensures { Reads (λ n. fits true n × (written n ≡ spelling.now)) result };

    ghost unblank: { (n : Self) → fits true n → Unblank (written n) };
}

// Numbers of at most eight digits.
impl Numeral for u32 {
    ghost written = { decimal };

    ghost fits = { NumberFits };

    ghost unblank = { unblank_natural };

    fn unused() -> u32 {
        0
    }

    fn read(spelling: &[u8]) -> Option<u32> {
        magnitude(spelling, MOST_NATURAL).map(|n| n as u32)
    }
}

// Signed numbers of 64 bits.
impl Numeral for i64 {
    ghost written = { signed_decimal };

    ghost fits = { LiteralFits };

    ghost unblank = { unblank_signed };

    fn unused() -> i64 {
        0
    }

    fn read(spelling: &[u8]) -> Option<i64> {
        match spelling.strip_prefix(b"-") {
            Some(digits) => below_zero(digits),
            None => magnitude(spelling, MOST_POSITIVE).map(|n| n as i64),
        }
    }
}
