//! A signature's bytes in hexadecimal.

ghost use Rattle.std.specs.Fmt.{WritesOnOk, WritesStyledOnOk};
ghost use Rattle.hex.specs.Hex.{encode_lower, encode_upper};
ghost use Rattle.sshkey_keys.specs.Signatures.{signature_of};

use super::Signature;
use sshkey_base::{write_lower_hex, write_upper_hex};
use std::fmt;

/// Two digits for each of its bytes, with small letters.
impl fmt::LowerHex for Signature {
    fn fmt<W: fmt::Write>(&self, f: &mut fmt::Formatter<W>) -> fmt::Result
        ensures writes { WritesOnOk W.write_str_gives f.old result
            (encode_lower (signature_of self.now).blob) f.new }
        ensures styled { WritesStyledOnOk W.write_str_gives f.old result
            (encode_lower (signature_of self.now).blob) f.new }
    {
        write_lower_hex(self.as_bytes(), f)
    }
}

/// Two digits for each of its bytes, with capital letters.
impl fmt::UpperHex for Signature {
    fn fmt<W: fmt::Write>(&self, f: &mut fmt::Formatter<W>) -> fmt::Result
        ensures writes { WritesOnOk W.write_str_gives f.old result
            (encode_upper (signature_of self.now).blob) f.new }
        ensures styled { WritesStyledOnOk W.write_str_gives f.old result
            (encode_upper (signature_of self.now).blob) f.new }
    {
        write_upper_hex(self.as_bytes(), f)
    }
}
