//! The numbers that OpenSSH reads.

ghost use Rattle.std.specs.Prelude.{◌≡◌, Some};
ghost use Rattle.openssh_limits.specs.Limits.{bits_in, is_read_number, read_bits};

/// How many bytes a positive number has at most: 16,384 bits.
const MOST_BYTES: usize = 2048;

/// Whether OpenSSH reads the number: it is positive, and has at most 16,384 bits.
pub(crate) fn is_read_number(number: &[u8]) -> bool
    ensures { result ≡ is_read_number number.now }
{
    read_bits(number) > 0
}

/// How many bits the number has if OpenSSH reads it; 0 of any other. Its bytes are in two's
/// complement.
pub(crate) fn read_bits(number: &[u8]) -> u32
    ensures { result ≡ read_bits number.now }
{
    match number {
        [0, bytes @ ..] => bits_in(bytes),
        [first, ..] if *first < 0x80 => bits_in(number),
        _ => 0,
    }
}

/// How many bits the number of those bytes has, if the first is not zero; 0 for more bytes than
/// OpenSSH reads.
fn bits_in(bytes: &[u8]) -> u32
    ensures { result ≡ bits_in (Some bytes.now) }
{
    if bytes.len() > MOST_BYTES {
        return 0;
    }
    match bytes.first() {
        Some(byte) => 8 * bytes.len() as u32 - byte.leading_zeros(),
        None => 0,
    }
}
