//! The wire format of Protocol Buffers: takes bytes, gives the varints and fields in them, and puts both behind others.
//!
//! Read `varint` (numbers of up to 64 bits), `field` (a number with a value) and `put` (what is written, and the laws that it
//! is read again). Signed numbers are those of `tb_types`. A message is the list of its fields, defined in `specs/Message`.
#![tactic(auto)]

mod field;
mod put;
mod varint;

pub use field::{Field, FieldValue, read_field};
pub use put::{fields_are_read_again, put_len, put_varint, varints_are_read_again};
pub use tb_types::{unzigzag, zigzag};
pub use varint::{Wire, read_varint};

#[cfg(test)]
mod tests;
