use hn_base::NodeId;

/// What a router says of its own node (RFC 7787, section 4.1).
#[derive(Clone, Copy)]
pub struct OwnLeaf {
    pub id: NodeId,
    /// The sequence number.
    pub number: u32,
    /// The hash of the node data.
    pub hash: [u8; 8],
}

/// A Node State TLV (RFC 7787, section 7.2.3).
#[derive(Clone, Copy)]
pub struct State<'a> {
    pub node: NodeId,
    /// The sequence number.
    pub number: u32,
    /// How old the data are, in milliseconds.
    pub age: u32,
    /// The hash of the node data.
    pub hash: [u8; 8],
    /// The node data; none are there where the TLV carries no data.
    pub body: &'a [u8],
}

/// What came of a node state (RFC 7787, section 4.4).
#[derive(Clone, Copy)]
pub enum Took {
    /// Its data are held now.
    Kept,
    /// It carries no data, and has a newer sequence number with the hash that is held.
    Renumbered,
    /// It carries no data, and its data are not held: they are to be asked for.
    Ask,
    /// It says nothing that is newer than what is held.
    Stale,
    /// Its data have another hash than it says.
    BadHash,
    /// Its data are no list of TLVs.
    BadBody,
    /// Its data have more than 60,000 bytes.
    TooLong,
    /// The node is not held, and there is no room for it.
    Full,
    /// Another node claims the router's own identifier.
    Own,
}
