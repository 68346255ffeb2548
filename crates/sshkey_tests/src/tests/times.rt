//! The seconds of a certificate's times.

use super::support::is_wanted;
use sshkey_cert_values::{EndTime, FOREVER, MAX_SECS, UnixTime};

/// The last second that a time can be (2^63 - 1), and the number for no end (2^64 - 1,
/// PROTOCOL.certkeys).
#[test]
fn times_have_their_seconds(rt: HostRuntime) {
    assert!(rt; MAX_SECS == 9_223_372_036_854_775_807);
    assert!(rt; FOREVER == 18_446_744_073_709_551_615);
    assert!(rt; is_wanted(begins_at(10), Some(10)));
    assert!(rt; is_wanted(begins_at(MAX_SECS), Some(9_223_372_036_854_775_807)));
    assert!(rt; is_wanted(ends_at(20), Some(20)));
    assert!(rt; EndTime::forever().secs() == 18_446_744_073_709_551_615);
    assert!(rt; EndTime::forever().is_forever());
}

fn begins_at(secs: u64) -> Option<u64> {
    Some(UnixTime::new(secs).ok()?.secs())
}

fn ends_at(secs: u64) -> Option<u64> {
    let end = EndTime::new(secs).ok()?;
    (!end.is_forever()).then_some(end.secs())
}
