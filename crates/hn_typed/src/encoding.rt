//! Items written as texts of their own (RFC 7787, section 7; RFC 7788, section 10).

ghost use Rattle.std.specs.Prelude.{◌≤◌, length, IfOk};
ghost use Rattle.hn_typed.specs.Written.{value_of, HasPriority, HasTlvsAfter, HasOtherKind, IsEncoding};
ghost use Rattle.hn_typed.specs.View.{plain_item};

use crate::item::Item;
use crate::laws::read_is_writable;
use crate::writing::write;
use hn_base::{Bytes, NoMemory};
use std::alloc::Global;

/// The one TLV that is written for the item (RFC 7787, section 7; RFC 7788, section 10), under the conditions of
/// `write`.
///
/// # Errors
///
/// Out of memory.
#[inline(always)]
pub fn encode(alloc: Global, item: &Item<'_>) -> Result<Bytes, NoMemory>
    requires short { length (value_of (plain_item item.now)) ≤ 65535 }
    requires priority { HasPriority (plain_item item.now) }
    requires subs { HasTlvsAfter (plain_item item.now) }
    requires other_kind { HasOtherKind (plain_item item.now) }
    ensures { IfOk result (λ bytes. IsEncoding bytes (plain_item item.now)) }
{
    read_is_writable();
    let mut bytes = Vec::new(alloc);
    write(item, &mut bytes)?;
    Ok(Bytes::from(bytes))
}
