//! What a router asks prefixes for: its attached endpoints and, where it has a private link, endpoint 0.

ghost use Rattle.std.specs.Prelude.{◌≡◌, ◌≤◌, IfOk};
ghost use Rattle.hn_own.specs.Posts.{private_posts, posts_of, length_at};

use crate::ports::Ports;
use hn_base::{EpId, LinkLength, NoMemory};
use std::alloc::Global;

/// The endpoint of a private link.
pub const PRIVATE_POST: EpId = EpId(0);

/// The length of the prefixes that the link of an attached endpoint gets (RFC 7788, section 6.3.2).
const LINK_LENGTH: u8 = 64;

/// The post of a private link, if there is one.
fn private_posts(alloc: Global, private: Option<LinkLength>) -> Result<Vec<EpId>, NoMemory>
    ensures { IfOk result (λ posts. posts.items ≡ private_posts private) }
{
    let mut posts = Vec::new(alloc);
    if private.is_some() {
        posts.push(PRIVATE_POST)?;
    }
    Ok(posts)
}

/// The length of the prefixes that a post gets, 1 to 64: the private length at endpoint 0 where there is a private link,
/// and 64 elsewhere. Never allocates.
pub fn length_at(private: Option<LinkLength>, endpoint: EpId) -> u8
    ensures length { result ≡ length_at private endpoint }
    ensures some { 1 ≤ result }
    ensures in_range { result ≤ 64 }
{
    match private {
        None => LINK_LENGTH,
        Some(length) => {
            if endpoint == PRIVATE_POST {
                length.get()
            } else {
                LINK_LENGTH
            }
        }
    }
}

impl Ports {
    /// The posts of a router with these endpoints and this private link, or none, in order of their numbers.
    ///
    /// # Errors
    ///
    /// Out of memory.
    pub fn posts(&self, alloc: Global, private: Option<LinkLength>) -> Result<Vec<EpId>, NoMemory>
        ensures { IfOk result (λ posts. posts.items ≡ posts_of private self.now) }
    {
        let mut posts = private_posts(alloc, private)?;
        posts.extend_from_slice(self.endpoints(alloc)?.as_slice())?;
        Ok(posts)
    }
}
