use hn_base::NodeId;

/// What is seen of a node: the sequence number and the hash that are kept of it, and with how many numbers it was shown
/// with different hashes.
#[derive(Clone, Copy)]
pub struct Seen {
    pub node: NodeId,
    pub number: u32,
    pub hash: [u8; 8],
    pub conflicts: u64,
}
