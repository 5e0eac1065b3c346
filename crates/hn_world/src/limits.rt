//! How large a home of each version may be. Nothing here allocates.

ghost use Rattle.std.specs.Prelude.{◌≡◌, ◌⊎◌};
ghost use Rattle.hn_world.specs.Limits.{most_routers, table_limit};

use hn_base::Version;
use hn_store::{LARGE_LIMIT, LIMIT};

/// The most routers of a world of version 1.
const MOST_ROUTERS: usize = 64;

/// The most routers of a world of version 2.
const MOST_ROUTERS_OF_TWO: usize = 128;

/// The most links.
pub const MOST_LINKS: usize = 64;

/// The most routers of a world: 64 in version 1, 128 in version 2.
pub fn most_routers(version: Version) -> usize
    ensures { result ≡ most_routers version }
{
    match version {
        Version::One => MOST_ROUTERS,
        Version::Two => MOST_ROUTERS_OF_TWO,
    }
}

/// How many other nodes a router of a world holds at most: 256 in version 1, 1,024 in version 2.
pub fn table_limit(version: Version) -> usize
    ensures limit { result ≡ table_limit version }
    ensures sized { (result ≡ 256) ⊎ (result ≡ 1024) }
{
    match version {
        Version::One => LIMIT,
        Version::Two => LARGE_LIMIT,
    }
}
