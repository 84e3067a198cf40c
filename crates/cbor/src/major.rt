//! Major types (RFC 8949, section 3.1).

/// What kind of item a head begins, of the kinds that are used here.
#[derive(Clone, Copy, PartialEq, Eq)]
pub enum Major {
    Unsigned = 0,
    Negative = 1,
    Bytes = 2,
    Array = 4,
    Map = 5,
    Simple = 7,
}

/// The simple value of null (RFC 8949, section 3.3).
pub const NULL: u64 = 22;
