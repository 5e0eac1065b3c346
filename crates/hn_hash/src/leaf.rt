use hn_base::Bytes;

/// What a node publishes, as a leaf of the hash tree (RFC 7787, section 4.1).
#[derive(Drop)]
pub struct Leaf {
    /// The node's sequence number.
    pub number: u32,
    /// The node's data.
    pub body: Bytes,
}
