//! Whether a router announces a ULA prefix of its own making, withdraws one, or does neither (RFC 7788, section 6.5).

ghost use Rattle.std.specs.Prelude.{◌≡◌, ◌↔◌, [], ◌∷◌, ℕ, List, IsTrue, IfOk};
ghost use Rattle.hn_base.specs.Prefix.{PlainPrefix};
ghost use Rattle.hn_base.specs.Words.{Took};
ghost use Rattle.hn_ula.specs.Ula.{made_of, Announces, Decides, IsUlaStill, IsOwnOf};
ghost use Rattle.hn_ula.specs.Laws.{HasADecision};

use crate::found::{find, own};
use crate::generated::{SITE_LENGTH, of_router};
use crate::laws::decision_exists;
use hn_base::NoMemory;
use hn_io::{Draw, words_join};
use hn_prefix::Prefix;
use hn_router::Router;
use std::alloc::Global;

/// What a router does with ULA prefixes of its own making.
#[derive(Clone, Copy)]
pub enum Ula {
    /// It announces none and withdraws none.
    Keep,
    /// It announces this one.
    Announce(Prefix),
    /// It withdraws this one.
    Withdraw(Prefix),
}

/// The prefix that is made of two words: fd, the four bytes of the first, and the lowest byte of the second.
fn made_of(first: u32, second: u32) -> Prefix
    ensures { result ≡ made_of first second }
{
    let global_id = (u128::from(first) << 8) + u128::from(second % 256);
    Prefix::containing((0xfd << 120) + (global_id << 80), SITE_LENGTH)
}

/// The next word.
fn take<D: Draw>(draw: &mut D) -> u32
    ensures { Took (D.words draw.old) (result ∷ []) (D.words draw.new) }
{
    draw.next()
}

/// A prefix with a new Global ID is announced.
fn announce<D: Draw>(draw: &mut D) -> Ula
    ensures { (words : List ℕ) × Announces result words × Took (D.words draw.old) words (D.words draw.new) }
{
    words_join();
    let first = take(draw);
    let second = take(draw);
    Ula::Announce(made_of(first, second))
}

/// What a router does now (RFC 7788, section 6.5).
///
/// A generated prefix is a Delegated-Prefix of a reachable node with an HNCP-Version. It has 48 bits and is inside fd00::/8.
/// Its lifetimes do not count. A foreign prefix is a usable delegated prefix that is not inside fd00::/8. Its preferred
/// lifetime has not ended. The first of these that holds decides:
///
/// 1. The router has a generated prefix, and there is a foreign one or a node with a greater identifier has a generated one:
///    it withdraws its greatest generated prefix.
/// 2. The router has two generated prefixes: it withdraws the greatest.
/// 3. Nobody has a generated prefix, there is no foreign one, and no reachable node has a greater identifier: it announces
///    one. Its Global ID (RFC 4193, section 3.2) takes two words. No other answer takes a word.
/// 4. It keeps what there is.
///
/// Whether there is memory or not, it cannot be that there is no decision over a stream of words; with `decision_is_unique`
/// there is exactly one.
///
/// # Errors
///
/// Out of memory.
pub fn decide<D: Draw>(alloc: Global, router: &Router, draw: &mut D) -> Result<Ula, NoMemory>
    ensures decided { IfOk result
        (λ ula. (words : List ℕ) × Decides router.now ula words × Took (D.words draw.old) words (D.words draw.new)) }
    ensures exists { HasADecision router.now }
{
    decision_exists();
    let found = find(alloc, router)?;
    match found.own {
        Some(own) if found.must_go => Ok(Ula::Withdraw(own)),
        Some(own) if found.has_two => Ok(Ula::Withdraw(own)),
        None if found.is_to_announce => Ok(announce(draw)),
        _ => Ok(Ula::Keep),
    }
}

/// Whether the router keeps what there is, whatever the words are.
///
/// # Errors
///
/// Out of memory.
pub fn still(alloc: Global, router: &Router) -> Result<bool, NoMemory>
    ensures { IfOk result (λ answer. IsTrue answer ↔ IsUlaStill router.now) }
{
    let found = find(alloc, router)?;
    Ok(match found.own {
        Some(_) => !found.must_go && !found.has_two,
        None => !found.is_to_announce,
    })
}

/// Whether the router has a generated prefix.
///
/// # Errors
///
/// Out of memory.
pub fn has_generated(alloc: Global, router: &Router) -> Result<bool, NoMemory>
    ensures { IfOk result (λ answer. IsTrue answer ↔ ((p : PlainPrefix) × IsOwnOf router.now p)) }
{
    let list = of_router(alloc, router)?;
    Ok(own(router, list.as_slice()).is_some())
}
