// A pruning certificate.
use crate::AuditLines;
use hd_map::{Adjacency, SideName};
use hd_num::Percent;

/// What a pruning certificate says of one point. Points go by their index.
#[derive(Clone, Copy, Debug, PartialEq, Eq)]
pub struct AuditLine {
    /// The point.
    pub index: u32,
    /// The neighbour of the point by which it is reached, and none for a kept pit.
    pub parent: Option<u32>,
    /// The kept pit in whose cut the point lies, and none where it lies in no cut.
    pub cut: Option<u32>,
}

/// What is said to show that some pits are those that a pruning keeps.
#[derive(Debug, Drop)]
pub struct Audit {
    /// The side whose order is meant.
    pub side: SideName,
    /// The percent of the pruning.
    pub percent: Percent,
    /// The setting of the neighbours that is meant.
    pub adjacency: Adjacency,
    /// What is said of each present point.
    pub lines: AuditLines,
}
