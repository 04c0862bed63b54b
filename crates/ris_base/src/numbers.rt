ghost use Rattle.std.specs.Prelude.{◌≡◌, ◌+◌, ◌*◌, ◌<◌, ◌≤◌, ◌^◌, length, SomeIff};
ghost use Rattle.ris_base.specs.Number.{number_of};

/// The number that a field spells: 1 to 20 decimal digits, leading zeros allowed, with a value below 2^64. `None`
/// exactly where the field spells none.
pub fn read_number(field: &[u8]) -> Option<u64>
    ensures { result ≡ number_of field.now }
{
    if field.is_empty() || field.len() > 20 {
        return None;
    }
    if field.len() < 20 {
        read_short(field)
    } else {
        read_long(field)
    }
}

/// The same, of fewer than 20 digits, whose value is always below 2^64.
fn read_short(field: &[u8]) -> Option<u64>
    requires filled { 0 < length field.now }
    requires short { length field.now < 20 }
    ensures { result ≡ number_of field.now }
{
    let mut number = 0u64;
    for digit in field {
        if !digit.is_ascii_digit() {
            return None;
        }
        number = 10 * number + u64::from(*digit - b'0');
    }
    Some(number)
}

/// The same, of up to 20 digits.
fn read_long(field: &[u8]) -> Option<u64>
    requires filled { 0 < length field.now }
    requires long { length field.now ≤ 20 }
    ensures { result ≡ number_of field.now }
{
    let mut number = 0u64;
    for digit in field {
        if !digit.is_ascii_digit() {
            return None;
        }
        number = append_digit(number, *digit - b'0')?;
    }
    Some(number)
}

/// The number with one digit more behind it. `None` exactly where it is 2^64 or more.
fn append_digit(number: u64, digit: u8) -> Option<u64>
    requires { digit < 10 }
    ensures { SomeIff result (10 * number + digit < 2 ^ 64) (10 * number + digit) }
{
    number.checked_mul(10)?.checked_add(u64::from(digit))
}
