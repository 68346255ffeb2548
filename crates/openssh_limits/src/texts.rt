//! The texts that OpenSSH reads.

ghost use Rattle.std.specs.Prelude.{◌≡◌, ◌↔◌, IsTrue, All, map, string_bytes};
ghost use Rattle.sshkey_model.specs.Lines.{IsWithout};
ghost use Rattle.openssh_limits.specs.Limits.{openssh_reads_text, AreReadPrincipals};

/// How many principals OpenSSH reads of a certificate.
const MOST_PRINCIPALS: usize = 256;

/// Returns whether OpenSSH reads these principals of a certificate as they are: at most 256, and no
/// byte of one is 0. Does not allocate.
pub fn openssh_reads_principals(names: &[String]) -> bool
    ensures { IsTrue result ↔ AreReadPrincipals (map string_bytes names.now) }
{
    if names.len() > MOST_PRINCIPALS {
        return false;
    }
    are_read_texts(names)
}

/// Returns whether OpenSSH reads each of the texts as it is.
fn are_read_texts(texts: &[String]) -> bool
    ensures { IsTrue result ↔ All (λ n. IsWithout 0 (string_bytes n)) texts.now }
{
    for text in texts {
        if !openssh_reads_text(text.as_str()) {
            return false;
        }
    }
    true
}

/// Returns whether OpenSSH reads the text as it is: no byte is 0. It takes a text to end at a zero
/// byte that is its last, and refuses one with another zero byte. Does not allocate.
pub fn openssh_reads_text(text: &str) -> bool
    ensures { IsTrue result ↔ IsWithout 0 text.now }
{
    has_no_zero(text)
}

/// Whether no byte of the text is 0.
pub(crate) fn has_no_zero(text: &str) -> bool
    ensures { result ≡ openssh_reads_text text.now }
{
    !text.as_bytes().contains(&0)
}
