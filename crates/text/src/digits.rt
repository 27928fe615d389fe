// Hexadecimal digits in upper case, and the numbers that they are.
ghost use Rattle.std.specs.Prelude.{◌≡◌, ◌<◌, ◌^◌, length, IfSome};
ghost use Rattle.text.specs.Digits.{digit_of, value_of, hex_digits, parse_of};

const DIGITS: [u8; 16] = *b"0123456789ABCDEF";

// The digit of a number's lowest four bits. Digits by hand, and no `{:X}`, as line.rt says.
fn hex_digit(number: u32) -> u8
    ensures { result ≡ digit_of number }
{
    DIGITS[(number % 16) as usize]
}

// The value of a digit.
fn digit_value(byte: u8) -> Option<u32>
    ensures value { result ≡ value_of byte }
    ensures small { IfSome result (λ n. n < 16) }
{
    let value = DIGITS.iter().position(|digit| *digit == byte)?;
    Some(value as u32)
}

// The eight digits of a number, zeros in front.
pub(crate) fn hex_digits(number: u32) -> [u8; 8]
    ensures { result ≡ hex_digits 8 number }
{
    [
        hex_digit(number / 268435456),
        hex_digit(number / 16777216),
        hex_digit(number / 1048576),
        hex_digit(number / 65536),
        hex_digit(number / 4096),
        hex_digit(number / 256),
        hex_digit(number / 16),
        hex_digit(number),
    ]
}

// The number that digits are, 0 for none. None where a byte is no digit in upper case, and for more than eight bytes.
// No u32::from_str_radix: it takes lower case and a sign too, for which a line is refused.
pub fn hex_number(digits: &[u8]) -> Option<u32>
    ensures value { result ≡ parse_of digits.now }
    ensures below { IfSome result (λ n. n < 16 ^ length digits.now) }
{
    if 8 < digits.len() {
        return None;
    }
    let mut number = 0;
    for digit in digits {
        let value = digit_value(*digit)?;
        number = number * 16 + value;
    }
    Some(number)
}
