//! Worked examples of ciphers, key derivations and padding, and both sides of each edge.
#![tactic(auto, unfolding(sshkey_model::specs::Parts::flat, sshkey_model::specs::Reading::string_at, sshkey_model::specs::Reading::number_at, sshkey_model::specs::Reading::bytes_at, sshkey_model::specs::Reading::box_at, sshkey_model::specs::Names::named, sshkey_model::specs::Labels::label_at, sshkey_model::specs::Reading::after_at, crate::specs::Formats::kdf_at))]

ghost use Rattle.sshkey_ciphers.specs.CipherExamples.{KdfHeaders, KdfOptions, PaddingEnds, UnknownCipher};

/// Names of ciphers are told apart by case.
pub fn unknown_cipher()
    ensures { UnknownCipher }
{}

/// The 38 bytes of bcrypt with a salt of 16 bytes, the 12 of no key derivation, and refusals.
pub fn kdf_headers()
    ensures { KdfHeaders }
{}

/// The options of bcrypt are a string that salt and rounds cover exactly.
pub fn kdf_options()
    ensures { KdfOptions }
{}

/// Padding is shorter than a block, and may be missing.
pub fn padding_ends()
    ensures { PaddingEnds }
{}
