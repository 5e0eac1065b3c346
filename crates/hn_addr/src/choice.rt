//! Which addresses a router takes (RFC 7788, section 6.4).

ghost use Rattle.std.specs.Prelude.{◌≡◌, ◌↔◌, ℕ, List, IsTrue, IfOk, Contains};
ghost use Rattle.std.specs.List.Sorted.{IsStrictlySortedBy};
ghost use Rattle.hn_base.specs.Ascending.{HaveSame};
ghost use Rattle.hn_base.specs.Words.{Took};
ghost use Rattle.hn_own.specs.Addresses.{address_cmp};
ghost use Rattle.hn_addr.specs.Addresses.{AreNext, IsChoice, IsAddressStill};
ghost use Rattle.hn_addr.specs.Laws.{HasAChoice};

use crate::choosing::{Choosing, choose_all};
use crate::laws::{choice_exists, choosing_is_unique};
use hn_base::{EpId, NoMemory, Sequence, sort_to_set};
use hn_io::{Draw, Zeros};
use hn_router::Router;
use std::alloc::Global;

/// What a router does with its own addresses.
#[derive(Drop)]
pub enum Choice {
    /// They stay.
    Keep,
    /// It sets these, each with its endpoint, in strictly ascending order.
    Set(Sequence<(EpId, u128)>),
}

/// Brings addresses into ascending order, each once.
fn sorted(list: Sequence<(EpId, u128)>) -> Sequence<(EpId, u128)>
    ensures ascending { IsStrictlySortedBy address_cmp result }
    ensures same { HaveSame result list }
{
    let mut items = list.into_vec();
    sort_to_set(&mut items);
    Sequence::from(items)
}

/// The addresses that a router would have next, in ascending order, and the words that choosing them takes.
fn next<D: Draw>(alloc: Global, router: &Router, draw: &mut D) -> Result<Choosing, NoMemory>
    ensures next { IfOk result (λ next. AreNext router.now next.list next.words) }
    ensures drew { IfOk result (λ next. Took (D.words draw.old) next.words (D.words draw.new)) }
{
    let Choosing { list, words } = choose_all(alloc, router, draw)?;
    Ok(Choosing {
        list: sorted(list),
        words,
    })
}

/// Whether addresses are the own ones of a router.
fn are_own(router: &Router, list: &[(EpId, u128)]) -> bool
    ensures { IsTrue result ↔ (list.now ≡ router.now.addresses) }
{
    list == router.addresses()
}

/// The addresses that a router takes now (RFC 7788, section 6.4). Each assignment that is applied and of an attached endpoint
/// has one at most. They are chosen in ascending order of delegated prefix and endpoint:
///
/// 1. The least own address of the endpoint inside the prefix stays, where no reachable node with a greater identifier and
///    an HNCP-Version has it, and it did not come already.
/// 2. Otherwise a number from 1 to 65,535 fits where the address that it makes with the bits of the prefix is inside the
///    prefix, no other such node has it, and it did not come already. Where one fits, a word is taken, and the address
///    comes with the first that fits, in cyclic order through 1 to 65,535 from 1 and the word modulo 65,535.
/// 3. Where none fits, no word is taken, and the assignment gets no address.
///
/// The answer is `Keep` if and only if these are the own addresses. They may be more than 64. Whether there is memory or not,
/// it cannot be that there is no choice over a stream of words; with `choice_is_unique` there is exactly one.
///
/// # Errors
///
/// Out of memory. Words may have been taken then.
pub fn choose<D: Draw>(alloc: Global, router: &Router, draw: &mut D) -> Result<Choice, NoMemory>
    ensures chosen { IfOk result
        (λ choice. (words : List ℕ) × IsChoice router.now choice words × Took (D.words draw.old) words (D.words draw.new)) }
    ensures exists { HasAChoice router.now }
{
    choice_exists();
    let next = next(alloc, router, draw)?;
    if are_own(router, next.list.as_slice()) {
        Ok(Choice::Keep)
    } else {
        Ok(Choice::Set(next.list))
    }
}

/// Whether the own addresses stay, and no address is chosen anew: the choice is `Keep`, and takes no word.
///
/// # Errors
///
/// Out of memory.
pub fn still(alloc: Global, router: &Router) -> Result<bool, NoMemory>
    ensures { IfOk result (λ answer. IsTrue answer ↔ IsAddressStill router.now) }
{
    choosing_is_unique();
    let next = next(alloc, router, &mut Zeros)?;
    Ok(next.words.is_empty() && are_own(router, next.list.as_slice()))
}
