use crate::cases::{bytes, parts};
use hn_base::{Bytes, number};
use hn_hash::{Agreement, Leaf, Part, agree, h, network, network_of};
use std::alloc::Global;
use std::slice;
use std::test::Fail;

/// The texts of RFC 1321, section A.5, after the first half of their hashes.
const STANDARD: &str = "d41d8cd98f00b204 \n\
     0cc175b9c0f1b6a8 a\n\
     900150983cd24fb0 abc\n\
     f96b697d7cb7938d message digest\n\
     c3fcd3d76192e400 abcdefghijklmnopqrstuvwxyz\n\
     d174ab98d277d9f5 ABCDEFGHIJKLMNOPQRSTUVWXYZabcdefghijklmnopqrstuvwxyz0123456789\n\
     57edf4a22be3c955 12345678901234567890123456789012345678901234567890123456789012345678901234567890";

#[test]
fn hashes_of_the_standard(rt: HostRuntime) -> Result<(), Fail> {
    for line in STANDARD.lines() {
        let (digits, text) = parts(line)?;
        let hash = u64::from_be_bytes(h(text.as_bytes()));
        assert!(rt;
            number(digits.as_bytes(), 16, 16) == Some(u128::from(hash)),
            "{line}"
        );
    }
    Ok(())
}

fn leaf(alloc: Global, number: u32, digits: &str) -> Result<Leaf, Fail> {
    let body = Bytes::from(bytes(alloc, digits)?);
    Ok(Leaf { number, body })
}

/// The hashes of the entries of the texts `a` and `abc`, by another MD5.
#[test]
fn network_hashes(rt: HostRuntime) -> Result<(), Fail> {
    let ours = leaf(rt.alloc(), 1, "61")?;
    let hash = network(slice::from_ref(&ours));
    assert!(rt; u64::from_be_bytes(hash) == 0xd92c_7c87_6e4d_c22f);
    let first = Part {
        number: 1,
        hash: 0x0cc1_75b9_c0f1_b6a8_u64.to_be_bytes(),
    };
    let second = Part {
        number: 0x0102_0304,
        hash: 0x9001_5098_3cd2_4fb0_u64.to_be_bytes(),
    };
    assert!(rt; u64::from_be_bytes(network_of(&[first, second])) == 0xb73f_735f_f31b_78a2);
    Ok(())
}

/// Two texts of one MD5 (X. Wang and H. Yu, How to Break MD5 and Other Hash Functions, 2005). In the second the highest
/// bit of six bytes is turned.
const COLLIDING: [&str; 2] = [
    "d131dd02c5e6eec4693d9a0698aff95c2fcab58712467eab4004583eb8fb7f89\
     55ad340609f4b30283e488832571415a085125e8f7cdc99fd91dbdf280373c5b\
     d8823e3156348f5bae6dacd436c919c6dd53e2b487da03fd02396306d248cda0\
     e99f33420f577ee8ce54b67080a80d1ec69821bcb6a8839396f9652b6ff72a70",
    "d131dd02c5e6eec4693d9a0698aff95c2fcab50712467eab4004583eb8fb7f89\
     55ad340609f4b30283e4888325f1415a085125e8f7cdc99fd91dbd7280373c5b\
     d8823e3156348f5bae6dacd436c919c6dd53e23487da03fd02396306d248cda0\
     e99f33420f577ee8ce54b67080280d1ec69821bcb6a8839396f965ab6ff72a70",
];

/// What two nodes agree on that are of one number, and have these data.
fn agreed(alloc: Global, one: &str, other: &str) -> Result<Agreement, Fail> {
    let ours = leaf(alloc, 2, one)?;
    let theirs = leaf(alloc, 2, other)?;
    let agreement = agree(alloc, slice::from_ref(&ours), slice::from_ref(&theirs))?;
    Ok(agreement)
}

#[test]
fn agreements(rt: HostRuntime) -> Result<(), Fail> {
    let [one, _] = COLLIDING;
    assert!(rt; matches!(agreed(rt.alloc(), one, one)?, Agreement::Same));
    assert!(rt; matches!(agreed(rt.alloc(), one, "61")?, Agreement::Differ));
    Ok(())
}

/// Whether these are the data that two nodes collide by.
fn are_colliding(agreement: &Agreement, one: &[u8], other: &[u8]) -> bool {
    match agreement {
        Agreement::Collide { left, right } => left.as_slice() == one && right.as_slice() == other,
        _ => false,
    }
}

#[test]
fn a_collision(rt: HostRuntime) -> Result<(), Fail> {
    let [one, other] = COLLIDING;
    let left = bytes(rt.alloc(), one)?;
    let right = bytes(rt.alloc(), other)?;
    let agreement = agreed(rt.alloc(), one, other)?;
    assert!(rt; are_colliding(&agreement, &left, &right), "they collide");
    Ok(())
}
