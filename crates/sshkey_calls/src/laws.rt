//! What holds of all bytes: a function without code, with a law as its contract.

ghost use Rattle.sshkey_model.specs.Keys.{SpellsKey, key_data_at};
ghost use Rattle.sshkey_model.specs.Certificates.{certificate_at, SpellsCertificate};
ghost use Rattle.sshkey_model.specs.Signatures.{signature_at, SpellsSignature};
ghost use Rattle.sshkey_sshsig.specs.SshSignatureFormats.{SpellsSshSignature, ssh_signature_value_at};
ghost use Rattle.sshkey_calls.specs.Rooms.{HasOneOutcome};

/// Bytes that spell a value spell no other, and have no fault. So a call tells of a value exactly
/// if the bytes spell one, and of no other value.
pub fn one_outcome()
    ensures key { HasOneOutcome SpellsKey key_data_at }
    ensures signature { HasOneOutcome SpellsSignature signature_at }
    ensures certificate { HasOneOutcome SpellsCertificate certificate_at }
    ensures ssh_signature { HasOneOutcome SpellsSshSignature ssh_signature_value_at }
{}
