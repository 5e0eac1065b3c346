ghost use Rattle.std.specs.Prelude.{◌↔◌, IsTrue};
ghost use Rattle.hn_base.specs.Order.{IsOlder};

/// Whether sequence number `a` is older than `b`, in the order that loops past 2^32 (RFC 7787, section 4.4). Of two
/// numbers exactly 2^31 apart each is older than the other. Never allocates.
pub fn older(a: u32, b: u32) -> bool
    ensures { IsTrue result ↔ IsOlder a b }
{
    a.wrapping_sub(b) >= 1 << 31
}
