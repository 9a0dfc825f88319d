//! A link as a document specifies it.

use afdx_frame::VlId;

/// A virtual link as a document specifies it, in the units and the ranges of a table. None: it leaves that
/// out.
#[derive(Drop)]
pub struct IcdLink {
    /// The identifier.
    pub id: VlId,
    /// The name: 1 to 32 ASCII letters, digits, `_` and `-`.
    pub name: Option<String>,
    /// The name as the document writes it, where a table can't hold that.
    pub original: Option<String>,
    /// The bandwidth allocation gap: 1, 2, 4, 8, 16, 32, 64 or 128 milliseconds.
    pub bag_ms: Option<u64>,
    /// The greatest jitter, in microseconds: at most 100000.
    pub jitter_us: Option<u64>,
    /// The size of the largest frame with its frame check sequence: 64 to 1518 bytes.
    pub smax: Option<u64>,
    /// Is integrity checking on?
    pub integrity: Option<bool>,
    /// Is redundancy management on?
    pub redundancy: Option<bool>,
    /// The greatest difference of time between the two copies of a frame, in microseconds: at most 1000000.
    pub skew_us: Option<u64>,
    /// The group that it belongs to, as an LRU or a port: 1 to 32 ASCII letters, digits, `_` and `-`.
    pub group: Option<String>,
}
