//! What a router advertises on an endpoint (RFC 4861, sections 4.2 and 4.6.2; RFC 7788, section 7).

ghost use Rattle.std.specs.Prelude.{◌≡◌, ◌≢◌, ◌↔◌, ◌^◌, ◌<◌, All, Any, Contains, IsTrue, IfOk, IfSome, IfNone};
ghost use Rattle.hn_base.specs.Prefix.{IsPrefix};
ghost use Rattle.hn_data.specs.View.{plain_view};
ghost use Rattle.hn_deleg.specs.Used.{whole_seconds};
ghost use Rattle.hn_rules.specs.Seen.{seen_by};
ghost use Rattle.hn_router.specs.Advertising.{AreInfos, GivesAddresses, IsManaged, IsLifetime};
ghost use Rattle.hn_router.specs.Advertising.{IsAdvertAt, IsAdvertBytes};
ghost use Rattle.hn_router.specs.Infos.{FitsFields, IsInfoFrom, HasNoInfo};

use crate::router::Router;
use hn_advert::{Advert, Info, Infos, bytes};
use hn_assign::Assigned;
use hn_base::{Bytes, EpId, Letter, NoMemory};
use hn_data::{Entry, View, version};
use hn_deleg::{Delegated, inside_keeps_the_order, lifetimes_fit, outside, used, whole_seconds};
use hn_link::common_link_exists;
use hn_prefix::Prefix;
use hn_rules::view_is_a_network;
use std::alloc::Global;

/// The lifetime in seconds of a router that has a way to the outside.
const LIFETIME: u16 = 1800;

/// A remaining lifetime in whole seconds, which fit the field of a Prefix Information option.
fn seconds(ms: u64) -> u32
    requires { whole_seconds ms < 2 ^ 32 }
    ensures { result ≡ whole_seconds ms }
{
    whole_seconds(ms) as u32
}

/// The used one of this prefix.
fn used_of<'a>(usable: &'a [Delegated], prefix: &Prefix) -> Option<&'a Delegated>
    ensures found { IfSome result (λ d. Contains usable.now d.now × (d.now.prefix ≡ prefix.now)) }
    ensures none { IfNone result (All (λ d. d.prefix ≢ prefix.now) usable.now) }
{
    usable.iter().find(|d| d.prefix == *prefix)
}

/// What an endpoint advertises of an assignment: its prefix, if it is of this endpoint and applied, and inside a usable
/// prefix, with the lifetimes of that one.
fn info_of(usable: &[Delegated], e: EpId, c: &Assigned) -> Option<Info>
    requires { All FitsFields usable.now }
    ensures some { IfSome result (IsInfoFrom usable.now e c.now) }
    ensures none { IfNone result (HasNoInfo usable.now e c.now) }
    ensures valid { IfSome result (λ i. IsPrefix i.prefix) }
{
    if c.endpoint != e || !c.applied {
        return None;
    }
    let delegated = used_of(usable, &c.delegated)?;
    prove!(c.prefix.len() <= 128);
    Some(Info {
        prefix: c.prefix,
        valid: seconds(delegated.valid),
        preferred: seconds(delegated.preferred),
    })
}

/// Whether a node offers capability H: it gives addresses by DHCPv6.
fn gives_addresses(node: &Entry) -> bool
    ensures { IsTrue result ↔ GivesAddresses node.now }
{
    match version(&node.body) {
        Some(caps) => caps.h > 0,
        None => false,
    }
}

/// Whether some node does.
fn are_addresses_given(nodes: &[Entry]) -> bool
    ensures { IsTrue result ↔ Any GivesAddresses nodes.now }
{
    nodes.iter().any(gives_addresses)
}

impl Router {
    /// The prefixes that an endpoint advertises, in ascending order, with their lifetimes.
    fn infos(&self, alloc: Global, view: &View<'_>, e: EpId) -> Result<Infos, NoMemory>
        requires { plain_view view.now ≡ seen_by self.now }
        ensures { IfOk result (AreInfos self.now e) }
    {
        lifetimes_fit();
        inside_keeps_the_order();
        let usable = used(alloc, view)?.into_vec();
        let mut infos = Infos::new(alloc);
        for c in self.assigned() {
            if let Some(info) = info_of(usable.as_slice(), e, c) {
                infos.push(info)?;
            }
        }
        Ok(infos)
    }

    /// Whether a node is elected for capability H on an endpoint's Common Link. Where no node offers it, none is asked.
    fn is_managed(&self, alloc: Global, view: &View<'_>, e: EpId) -> Result<bool, NoMemory>
        requires { plain_view view.now ≡ seen_by self.now }
        ensures { IfOk result (IsManaged self.now e) }
    {
        view_is_a_network();
        common_link_exists();
        self.is_router();
        if !are_addresses_given(view.nodes) {
            return Ok(false);
        }
        Ok(self.elected_in(alloc, view, e, Letter::H)?.is_some())
    }

    /// The lifetime in seconds as a default router; 0 is that of a router that is none.
    fn lifetime(&self, view: &View<'_>) -> u16
        requires { plain_view view.now ≡ seen_by self.now }
        ensures { IsLifetime self.now result }
    {
        if outside(view) { LIFETIME } else { 0 }
    }

    /// The Router Advertisement on an endpoint at the router's moment (RFC 4861, sections 4.2 and 4.6.2; RFC 7788, section
    /// 7). It has the flags M and O if and only if a node is elected for capability H on the endpoint's Common Link; the
    /// router lifetime 1800 seconds if a reachable node with an HNCP-Version has a connection to the outside, and else 0;
    /// and the prefix of each applied assignment of the endpoint whose delegated prefix is used, in ascending order, with
    /// what is left of the lifetimes of the delegated prefix in whole seconds, rounded down. An endpoint that is not
    /// attached is answered too.
    ///
    /// The router's moment is that of its last event. So let a tick happen at the moment of the advertisement, and then ask:
    /// what is left of the lifetimes is of that moment then.
    ///
    /// # Errors
    ///
    /// Out of memory.
    pub fn advertisement(&self, alloc: Global, e: EpId) -> Result<Advert, NoMemory>
        ensures { IfOk result (IsAdvertAt self.now e) }
    {
        let nodes = self.nodes(alloc)?;
        let view = self.view(nodes.as_slice());
        let managed = self.is_managed(alloc, &view, e)?;
        Ok(Advert {
            managed,
            other: managed,
            lifetime: self.lifetime(&view),
            infos: self.infos(alloc, &view, e)?,
        })
    }

    /// The same advertisement as the bytes of the ICMPv6 message. Let a tick happen at the same moment before.
    ///
    /// # Errors
    ///
    /// Out of memory.
    pub fn advert(&self, alloc: Global, e: EpId) -> Result<Bytes, NoMemory>
        ensures { IfOk result (IsAdvertBytes self.now e) }
    {
        bytes(alloc, &self.advertisement(alloc, e)?)
    }
}
