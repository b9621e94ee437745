use thiserror::Error;

/// Bytes that are no page. `at` is the offset of the first field of the header, the first slot or the
/// first byte that breaks its rule, in this order, and 4,096 for bytes of another length.
#[derive(Clone, Copy, Debug, PartialEq, Eq, Error)]
#[error("bad page at {at}")]
pub struct BadPage {
    pub at: u16,
}
