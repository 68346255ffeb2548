//! Worked examples of private keys that are read, and both sides of each edge.
#![tactic(auto, unfolding(sshkey_model::specs::Computed::is_utf8, sshkey_model::specs::Computed::chars, sshkey_model::specs::Parts::flat, sshkey_model::specs::Reading::string_at, sshkey_model::specs::Reading::number_at, sshkey_model::specs::Reading::bytes_at, sshkey_model::specs::Reading::box_at, sshkey_model::specs::Reading::literal_at, sshkey_model::specs::Texts::text_at, sshkey_model::specs::Names::named, sshkey_model::specs::Labels::label_at, sshkey_model::specs::Reading::after_at, sshkey_model::specs::Keys::key_data_at, sshkey_ciphers::specs::Formats::kdf_at, sshkey_ciphers::specs::Formats::blocks_at, sshkey_model::specs::KeyPairs::keypair_data_at, crate::specs::PrivateParts::checkint_at, crate::specs::PrivateParts::pair_with_at, crate::specs::PrivateParts::inner_at, crate::specs::PrivateParts::padded_below, crate::specs::PrivateKeyFormats::opening_at, crate::specs::PrivateKeyFormats::unencrypted_below, crate::specs::PrivateKeyFormats::last_encrypted_at, crate::specs::PrivateKeyFormats::steps_at))]

ghost use Rattle.sshkey_private.specs.PrivateKeyExamples.{EncryptedKeys, ReadKey, RefusedEncryptedKeys, RefusedFronts, RefusedPaddings, RefusedParts, Tags};

/// The 234 bytes of an Ed25519 key without a comment are read as that key, also with a byte after
/// them that is left over.
pub fn read_key()
    ensures { ReadKey }
{}

/// Another magic, another number of keys, and too few bytes.
pub fn refused_fronts()
    ensures { RefusedFronts }
{}

/// A checkint that is not repeated, a foreign public key, and a part that is no multiple of 8.
pub fn refused_parts()
    ensures { RefusedParts }
{}

/// A wrong byte of padding, a block too much, and a whole block where none is wanted.
pub fn refused_paddings()
    ensures { RefusedPaddings }
{}

/// The 146 bytes of an encrypted key with one block, and a key with none.
pub fn encrypted_keys()
    ensures { EncryptedKeys }
{}

/// A ciphertext that is no multiple of the block, a byte after the key, and a key derivation
/// without a cipher.
pub fn refused_encrypted_keys()
    ensures { RefusedEncryptedKeys }
{}

/// A tag has just its size.
pub fn tags()
    ensures { Tags }
{}
