use hn_base::NodeId;

/// A node, a sequence number and a hash of node data, as one Node State shows them (RFC 7787, section 7.2.3).
#[derive(Clone, Copy)]
pub struct Shown {
    pub node: NodeId,
    pub number: u32,
    pub hash: [u8; 8],
}
