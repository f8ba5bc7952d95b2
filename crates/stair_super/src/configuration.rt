use crate::label::Label;
use crate::mark::Mark;
use stair_base::Geometry;

/// What an epoch names: the array, and what its slots, its frozen mark and its label are from that epoch on.
#[derive(Clone, Copy, Debug, PartialEq, Eq)]
pub struct Configuration {
    /// The geometry of the array.
    pub geometry: Geometry,
    /// The epoch that names it.
    pub epoch: u64,
    /// The mark of each slot.
    pub marks: [Mark; 32],
    /// For each slot the epoch in which its device was admitted, which is its joined number.
    pub joins: [u64; 32],
    /// Whether the array is frozen: it takes no writes.
    pub frozen: bool,
    /// The label that its administrator gave it.
    pub label: Label,
}
