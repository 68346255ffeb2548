//! Public keys and signatures that are slices of the bytes that they were read from.
#![tactic(auto)]

mod body;
mod dispatch;
mod key_data_ref;
mod key_ref;
mod kinds;
mod leaves;
mod name_ref;
mod signature_ref;
mod walk;

pub use body::{skip_body, take_body};
pub use key_data_ref::KeyDataRef;
pub use key_ref::KeyRef;
pub use kinds::{DsaRef, RsaRef, SkEcdsaRef, SkEd25519Ref};
pub use leaves::MpintRef;
pub use signature_ref::SignatureRef;
