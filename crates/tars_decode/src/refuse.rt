use tars_model::List;
use tars_wire::WireFault;

/// Why what stands on the wire is no value of a type.
#[derive(Clone, Copy, PartialEq, Eq)]
pub enum Misfit {
    /// A field that the type does not read.
    WrongType,
    /// A number outside the type's range.
    Range,
    /// The second of two equal keys of a map.
    TwiceKey,
}

/// Why there are no values. A path leads to the place from the members: a member's tag, the index of an element
/// from 0, twice the index of an entry for its key and one more for its value.
#[derive(Drop)]
pub enum Refuse {
    /// The bytes are no body.
    Malformed(WireFault),
    /// A required member is absent.
    Missing { path: List<u32> },
    Mismatch { path: List<u32>, why: Misfit },
    /// Memory ran out.
    Memory,
}
