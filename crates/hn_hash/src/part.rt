/// A leaf of the hash tree with the hash of its node data in place of the node data (RFC 7787, section 4.1).
#[derive(Clone, Copy)]
pub struct Part {
    /// The node's sequence number.
    pub number: u32,
    /// The hash of the node's data.
    pub hash: [u8; 8],
}
