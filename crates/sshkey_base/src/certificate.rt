//! Parts of certificates (PROTOCOL.certkeys).

mod field;

pub use field::Field;
