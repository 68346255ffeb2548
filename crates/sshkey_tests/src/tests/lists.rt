//! The lists of a certificate that is a slice, walked over by a `for` as they are.

use ssh_key::certificate::{CertificateOptionsRef, PrincipalsRef};

/// Whether a `for` over the texts gives these, in order.
fn are_texts(bytes: &[u8], expected: &[&str]) -> bool {
    let Ok(texts) = PrincipalsRef::from_bytes(bytes) else {
        return false;
    };
    let mut wanted = expected.iter();
    for text in texts {
        if wanted.next() != Some(&text) {
            return false;
        }
    }
    wanted.next().is_none()
}

/// Whether a `for` over the options gives these names, in order.
fn are_names(bytes: &[u8], expected: &[&str]) -> bool {
    let Ok(options) = CertificateOptionsRef::from_bytes(bytes) else {
        return false;
    };
    let mut wanted = expected.iter();
    for (name, _) in options {
        if wanted.next() != Some(&name) {
            return false;
        }
    }
    wanted.next().is_none()
}

#[test]
fn lists_are_walked_over(rt: HostRuntime) {
    assert!(rt; are_texts(b"\0\0\0\x01a\0\0\0\x02bc", &["a", "bc"]));
    assert!(rt; !are_texts(b"\0\0\0\x01a\0\0\0\x02bc", &["a"]));
    assert!(rt; are_names(b"\0\0\0\x01a\0\0\0\0\0\0\0\x01b\0\0\0\0", &["a", "b"]));
    assert!(rt; !are_names(b"\0\0\0\x01a\0\0\0\0\0\0\0\x01b\0\0\0\0", &["b", "a"]));
}
