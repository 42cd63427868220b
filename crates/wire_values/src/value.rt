// The eight kinds of value.
use expiring_map::Bytes;

/// A typed value.
#[derive(Drop)]
pub enum Value {
    Bool(bool),
    I32(i32),
    U32(u32),
    I64(i64),
    U64(u64),
    Text(Bytes),
    Blob(Bytes),
    Raw(Bytes),
}

/// The kinds of values.
#[derive(Clone, Copy, Debug, PartialEq, Eq)]
pub enum Kind {
    Bool,
    I32,
    U32,
    I64,
    U64,
    Text,
    Blob,
    Raw,
}
