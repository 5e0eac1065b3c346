/// The keep-alive interval where nothing else is said, in milliseconds: the longest time between two network states
/// sent (`DNCP_KEEPALIVE_INTERVAL` of RFC 7788, section 3).
pub const KEEP_ALIVE_INTERVAL: u32 = 20_000;
