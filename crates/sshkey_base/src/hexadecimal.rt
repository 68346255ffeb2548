//! Bytes in hexadecimal.

ghost use Rattle.std.specs.Prelude.{IsAscii};
ghost use Rattle.std.specs.Fmt.{WritesOnOk, WritesStyledOnOk};
ghost use Rattle.hex.specs.Hex.{encode_lower, encode_upper, encode_with};

use std::fmt;

/// Writes each byte as two digits, with small letters, whatever options the formatter has.
///
/// Does not allocate. What was written before an error is unspecified.
pub fn write_lower_hex<W: fmt::Write>(bytes: &[u8], f: &mut fmt::Formatter<W>) -> fmt::Result
    ensures writes { WritesOnOk W.write_str_gives f.old result (encode_lower bytes.now) f.new }
    ensures styled { WritesStyledOnOk W.write_str_gives f.old result
        (encode_lower bytes.now) f.new }
{
    write_digits(bytes, b"0123456789abcdef", f)
}

/// Writes each byte as two digits, with capital letters, whatever options the formatter has.
///
/// Does not allocate. What was written before an error is unspecified.
pub fn write_upper_hex<W: fmt::Write>(bytes: &[u8], f: &mut fmt::Formatter<W>) -> fmt::Result
    ensures writes { WritesOnOk W.write_str_gives f.old result (encode_upper bytes.now) f.new }
    ensures styled { WritesStyledOnOk W.write_str_gives f.old result
        (encode_upper bytes.now) f.new }
{
    write_digits(bytes, b"0123456789ABCDEF", f)
}

/// Writes each byte as two of these digits.
fn write_digits<W: fmt::Write>(
    bytes: &[u8],
    digits: &[u8; 16],
    f: &mut fmt::Formatter<W>,
) -> fmt::Result
    requires { IsAscii digits.now }
    ensures writes { WritesOnOk W.write_str_gives f.old result
        (encode_with digits.now bytes.now) f.new }
    ensures styled { WritesStyledOnOk W.write_str_gives f.old result
        (encode_with digits.now bytes.now) f.new }
{
    for byte in bytes {
        f.write_char(char::from(digits[usize::from(*byte / 16)]))?;
        f.write_char(char::from(digits[usize::from(*byte % 16)]))?;
    }
    Ok(())
}
