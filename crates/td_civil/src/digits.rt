ghost use Rattle.std.specs.Prelude.{◌≡◌, ◌+◌, ◌-◌, ◌%◌, ◌<◌, length};
ghost use Rattle.td_civil.specs.Reading as reading;

/// Writes `YYYY-MM-DD`.
pub(crate) fn date_spelling(year: u32, month: u32, day: u32) -> [u8; 10]
    ensures { result ≡ reading.date_spelling year month day }
{
    [
        digit(year / 1000),
        digit(year / 100),
        digit(year / 10),
        digit(year),
        b'-',
        digit(month / 10),
        digit(month),
        b'-',
        digit(day / 10),
        digit(day),
    ]
}

/// The number of the two digits at `at`.
pub(crate) fn two_at(text: &[u8], at: usize) -> u32
    requires { at + 1 < length text.now }
    ensures value { result ≡ reading.two_at text.now at }
    ensures bound { result < 3000 }
{
    10 * digit_value(text[at]) + digit_value(text[at + 1])
}

/// The number of the four digits at `at`.
pub(crate) fn four_at(text: &[u8], at: usize) -> u32
    requires { at + 3 < length text.now }
    ensures { result ≡ reading.four_at text.now at }
{
    100 * two_at(text, at) + two_at(text, at + 2)
}

// The value of a digit.
fn digit_value(byte: u8) -> u32
    ensures value { result ≡ byte - 48 }
    ensures bound { result < 256 }
{
    byte.saturating_sub(b'0') as u32
}

/// The last digit of a number.
pub(crate) fn digit(number: u32) -> u8
    ensures { result ≡ 48 + number % 10 }
{
    b'0' + (number % 10) as u8
}
