ghost use Rattle.std.specs.Prelude.{◌≡◌, ◌<◌, ◌≤◌, ◌^◌, ◌++◌, [], ℕ, suc, false, true, All, min, length, count_by, option_copied, unwrap_or, IfSome, Some, OnOk, OnErr};
ghost use Rattle.std.specs.Option.{option_map};
ghost use Rattle.std.specs.List.{slice_get, slice_set};
ghost use Rattle.hn_world.specs.declared.copies.MailCopy.{MailCopy};
ghost use Rattle.hn_world.specs.Waiting.{first_waiting, bytes_of_copies};

use hn_base::{Addr, Bytes, EpId, Name, NoMemory, Shared};
use std::alloc::Global;
use std::marker::Model;

/// So many bytes of mail are the most.
pub(crate) const MOST_BYTES: u64 = 1 << 28;

/// An endpoint of a router of the world, the router by its place in order of definition.
#[derive(Clone, Copy)]
pub struct Target {
    pub place: usize,
    pub endpoint: EpId,
}

/// A copy of a datagram that a router sent, for one receiver.
#[derive(Drop)]
pub struct MailCopy {
    /// The receiver.
    pub to: Target,
    /// The address of the sender.
    pub from: Addr,
    /// Whether it was sent by multicast.
    pub multicast: bool,
    /// Whether it was neither delivered nor dropped yet.
    pub waiting: bool,
    /// Its bytes, which its copies share.
    pub bytes: Shared<Bytes>,
}

/// Where a copy goes, from where, and whether it waits.
#[derive(Clone, Copy)]
pub struct CopyInfo {
    /// The router that it goes to.
    pub to: Name,
    /// The router's endpoint.
    pub endpoint: EpId,
    pub from: Addr,
    pub multicast: bool,
    pub waiting: bool,
}

/// Every copy that was ever made. The first that waits is found without a search.
#[derive(Drop)]
pub struct Copies {
    items: Vec<MailCopy>,
    first: usize,
    waiting: usize,
    bytes: u64,
}

impl Model for Copies {
    ghost use Rattle.std.specs.Prelude.{List};
    ghost use Rattle.hn_world.specs.declared.copies.MailCopy.{MailCopy};
    ghost use Rattle.hn_world.specs.Waiting.{IsMail};

    ghost Value = { List MailCopy };

    ghost view = { λ c. c.items.items };

    ghost invariant = { λ c. IsMail c.items.items c.first c.waiting c.bytes };
}

/// How many bytes copies have together, up to 2^28.
fn bytes_of(copies: &[MailCopy]) -> u64
    ensures { result ≡ min (bytes_of_copies copies.now) (2 ^ 28) }
{
    let mut bytes: u64 = 0;
    for copy in copies {
        bytes = bytes
            .saturating_add(copy.bytes.get().len() as u64)
            .min(MOST_BYTES);
    }
    bytes
}

/// The place of the first that waits, or the end; none before `first` waits.
fn next_waiting(copies: &[MailCopy], mut first: usize) -> usize
    requires { first ≤ unwrap_or (first_waiting copies.now) (length copies.now) }
    ensures { result ≡ unwrap_or (first_waiting copies.now) (length copies.now) }
{
    while first < copies.len() && !copies[first].waiting {
        first += 1;
    }
    first
}

impl Copies {
    /// No copies. Never allocates.
    pub(crate) fn new(alloc: Global) -> Copies
        ensures { result ≡ [] }
    {
        Copies {
            items: Vec::new(alloc),
            first: 0,
            waiting: 0,
            bytes: 0,
        }
    }

    /// How many were made. Never allocates.
    pub(crate) fn len(&self) -> usize
        ensures { result ≡ length self.now }
    {
        self.items.len()
    }

    /// How many wait. Never allocates.
    pub(crate) fn waiting(&self) -> usize
        ensures { result ≡ count_by (λ c. c.waiting) self.now }
    {
        self.waiting
    }

    /// How many bytes they have together, up to 2^28. Never allocates.
    pub(crate) fn bytes(&self) -> u64
        ensures { result ≡ min (bytes_of_copies self.now) (2 ^ 28) }
    {
        self.bytes
    }

    /// The place of the first that waits. Never allocates.
    pub(crate) fn first_waiting(&self) -> Option<usize>
        ensures place { result ≡ first_waiting self.now }
        ensures in_range { IfSome result (λ place. place < usize.MAX) }
    {
        if self.first < self.items.len() {
            Some(self.first)
        } else {
            None
        }
    }

    /// The copy at a place. Never allocates.
    pub(crate) fn get(&self, place: usize) -> Option<&MailCopy>
        ensures { option_copied result ≡ slice_get self.now place }
    {
        self.items.get(place)
    }

    /// A copy waits no longer. Never allocates.
    pub(crate) fn take(&mut self, place: usize)
        requires { place < length self.old }
        ensures { (c : MailCopy) → slice_get self.old place ≡ Some c → self.new ≡ slice_set self.old place (record c { waiting = false }) }
    {
        if !self.items[place].waiting {
            return;
        }
        self.items[place].waiting = false;
        self.waiting -= 1;
        self.first = next_waiting(self.items.as_slice(), self.first);
    }

    /// Moves copies that wait to the end.
    ///
    /// # Errors
    ///
    /// Out of memory; the copies are as before then.
    pub(crate) fn add(&mut self, more: &mut Vec<MailCopy>) -> Result<(), NoMemory>
        requires { All (λ c. c.waiting ≡ true) more.old.items }
        ensures ok { OnOk result (self.new ≡ self.old ++ more.old.items) }
        ensures err { OnErr result (self.new ≡ self.old) }
    {
        let count = more.len();
        if count == 0 {
            return Ok(());
        }
        let bytes = bytes_of(more.as_slice());
        self.items.append(more)?;
        self.waiting += count;
        self.bytes = (self.bytes + bytes).min(MOST_BYTES);
        Ok(())
    }
}
