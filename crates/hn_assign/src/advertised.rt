use hn_base::Key;
use hn_prefix::Prefix;

/// A prefix that a node advertises as assigned to the link of one of its endpoints (RFC 7695, section 2).
#[derive(Clone, Copy, PartialEq, Eq, PartialOrd, Ord)]
pub struct Advertised {
    pub key: Key,
    pub prefix: Prefix,
}
