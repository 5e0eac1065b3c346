use crate::cases::bytes;
use hn_advert::{Info, read};
use hn_prefix::Prefix;
use std::alloc::Global;
use std::process::Abort;
use std::test::Fail;

/// An advertisement for 1,800 s of 2001:db8:0:1::/64, which is valid for 1,790 s and preferred for 890 s.
const ONE_PREFIX: &str = "86000000400007080000000000000000\
    030440c0000006fe0000037a0000000020010db8000000010000000000000000";

/// Both flags, a source link-layer address, 2001:db8::/60 and ::/0 with bits past their lengths, an MTU between them, and
/// a value other than the written one in each field that is not looked at.
const OTHERS_BETWEEN: &str = "86001234ffff000000007530000003e8\
    010102005e100001\
    03043c00ffffffff00015180ffffffff20010db80000000f8000000000000001\
    05010000000005dc\
    03040020000000000000000100000000ffffffffffffffffffffffffffffffff";

/// An advertisement for 1,800 s of nothing.
const NO_PREFIX: &str = "86000000400007080000000000000000";

/// What an advertisement says but for its options: both flags, and the lifetime.
type Head = (bool, bool, u16);

/// A message is read as these.
fn is_read(
    rt: &impl Abort,
    alloc: Global,
    digits: &str,
    head: Head,
    infos: &[Info],
) -> Result<(), Fail> {
    let advert = read(alloc, &bytes(alloc, digits)?)?;
    assert!(rt;
        (advert.managed, advert.other, advert.lifetime) == head,
        "{digits}"
    );
    assert!(rt; advert.infos.as_slice() == infos, "{digits}");
    Ok(())
}

#[test]
fn messages_are_read(rt: HostRuntime) -> Result<(), Fail> {
    let infos = [info("2001:db8:0:1::/64", 1790, 890)?];
    is_read(&rt, rt.alloc(), ONE_PREFIX, (false, false, 1800), &infos)?;
    let infos = [info("2001:db8::/60", u32::MAX, 86400)?, info("::/0", 0, 1)?];
    is_read(&rt, rt.alloc(), OTHERS_BETWEEN, (true, true, 0), &infos)?;
    is_read(&rt, rt.alloc(), NO_PREFIX, (false, false, 1800), &[])
}

fn info(prefix: &str, valid: u32, preferred: u32) -> Result<Info, Fail> {
    Ok(Info {
        prefix: Prefix::parse(prefix.as_bytes())?,
        valid,
        preferred,
    })
}

#[test]
fn a_message_is_written(rt: HostRuntime) -> Result<(), Fail> {
    let message = bytes(rt.alloc(), ONE_PREFIX)?;
    let written = hn_advert::bytes(rt.alloc(), &read(rt.alloc(), &message)?)?;
    assert!(rt; written.as_slice() == message.as_slice());
    Ok(())
}
