//! Worked examples of SSH signatures, and both sides of each edge.
#![tactic(auto, unfolding(sshkey_model::specs::Computed::is_utf8, sshkey_model::specs::Computed::chars, sshkey_model::specs::Parts::flat, sshkey_model::specs::Reading::string_at, sshkey_model::specs::Reading::number_at, sshkey_model::specs::Reading::bytes_at, sshkey_model::specs::Reading::box_at, sshkey_model::specs::Reading::literal_at, sshkey_model::specs::Texts::text_at, sshkey_model::specs::Names::named, sshkey_model::specs::Names::is_own_name, sshkey_model::specs::Names::is_other_name, sshkey_model::specs::Mpints::mpint_at, sshkey_model::specs::Signatures::signature_at, sshkey_model::specs::Labels::label_at, sshkey_model::specs::Reading::after_at, sshkey_model::specs::Keys::key_data_at))]

ghost use Rattle.sshkey_sshsig.specs.SshSignatureExamples.{Versions, SshSignatureFaults, SignerNames};

/// Versions 0 and 1 are kept, and 2 is rejected.
pub fn versions()
    ensures { Versions }
{}

/// Each fault of an SSH signature, field by field.
pub fn ssh_signature_faults()
    ensures { SshSignatureFaults }
{}

/// A signer under a name with a hash, and the normal form.
pub fn signer_names()
    ensures { SignerNames }
{}
