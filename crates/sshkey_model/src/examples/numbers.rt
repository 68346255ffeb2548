//! Examples of mpints and points.

ghost use Rattle.sshkey_model.specs.NumberExamples.{MpintForms, MpintReading, PositiveParts, Points, PointReading, LongPoints};

/// Which byte strings are mpints (RFC 4251, section 5): none with a needless 00, but those with a
/// needless ff.
pub fn mpint_forms()
    ensures { MpintForms }
{}

/// The mpints that RFC 4251 spells are read, and the rejected forms are rejected.
pub fn mpint_reading()
    ensures { MpintReading }
{}

/// The positive part of an mpint, and the mpint of a positive number.
pub fn positive_parts()
    ensures { PositiveParts }
{}

/// Points of each curve (SEC 1, section 2.3.3): each tag with its size, and one byte less and more.
pub fn points()
    ensures { Points }
{}

/// The curve of a point string is told by its tag and its length.
pub fn point_reading()
    ensures { PointReading }
{}

/// A point string of more than 133 bytes is too long, and of more than 65 in a security key.
pub fn long_points()
    ensures { LongPoints }
{}
