ghost use Rattle.std.specs.Prelude.{◌≡◌, ◌↔◌, ℕ, ◌+◌, ◌^◌, ◌<◌, ◌≤◌, List, [], ◌++◌, Err, OnOk, IfOk};
ghost use Rattle.hn_tlv.specs.Grammar.{HasTlvs, FirstFault};
ghost use Rattle.hn_tlv.specs.declared.fault.TlvFault.{TlvFault};
ghost use Rattle.hn_tlv.specs.declared.list_fault.ListFault.TheVariants as fault;
ghost use Rattle.hn_watch.specs.Shown.{AreShownIn};
ghost use Rattle.hn_watch.specs.Seen.{AreSeen};

use crate::laws::shown_is_unique;
use crate::reading::shown_in;
use crate::remembered::Remembered;
use crate::seen::Seen;
use crate::shown::Shown;
use hn_base::{NoMemory, Sequence};
use hn_tlv::{ListFault, check};
use std::alloc::Global;

/// What the nodes claimed of themselves, by the datagrams that were fed. It says what was claimed, and not which claim
/// is genuine.
#[derive(Drop)]
pub struct Watch {
    remembered: Remembered,
    fed: u64,
    malformed: u64,
    ghost counted: { malformed ≤ fed },
}

impl Watch {
    ghost use Rattle.hn_watch.specs.Watch.{fed_of, malformed_of, Holds, IsUnchanged, IsCounted};

    /// Nothing was fed. Never allocates.
    pub fn new(alloc: Global) -> Watch
        ensures fed { fed_of result ≡ 0 }
        ensures malformed { malformed_of result ≡ 0 }
        ensures holds { Holds [] result }
    {
        Watch {
            remembered: Remembered::new(alloc),
            fed: 0,
            malformed: 0,
        }
    }

    /// A datagram is fed: it shows the Node States at its top level (RFC 7787, section 7.2.3).
    ///
    /// # Errors
    ///
    /// `Malformed` if and only if the datagram is no list of TLVs (RFC 7787, section 7), with the first fault, as
    /// `hn_tlv::check` gives it; it is counted then, and shows nothing. Out of memory; nothing has changed then.
    pub fn feed(&mut self, alloc: Global, datagram: &[u8]) -> Result<(), ListFault>
        requires { fed_of self.old < 2 ^ 32 }

        // A list of TLVs is fed.
        ensures listed { OnOk result (HasTlvs datagram.now) }
        ensures shown { OnOk result ((shown before : List Shown) → AreShownIn datagram.now shown
            → Holds before self.old → Holds (before ++ shown) self.new) }
        ensures fed { OnOk result
            ((fed_of self.new ≡ fed_of self.old + 1) × (malformed_of self.new ≡ malformed_of self.old)) }

        // Other bytes are counted.
        ensures refused { (place why : ℕ)
            → (result ≡ Err (fault.Malformed (record { place = place; why = why }))) ↔ FirstFault datagram.now place why }
        ensures counted { (found : TlvFault) → result ≡ Err (fault.Malformed found) → IsCounted self.old self.new }

        ensures err { result ≡ Err fault.NoMemory → IsUnchanged self.old self.new }
    {
        if let Err(found) = check(datagram) {
            self.fed += 1;
            self.malformed += 1;
            return Err(ListFault::Malformed(found));
        }
        shown_is_unique();
        let shown = shown_in(alloc, datagram)?;
        self.remembered.make_room(shown.as_slice())?;
        self.remembered.note_all(shown.as_slice());
        self.fed += 1;
        Ok(())
    }

    /// How many datagrams were fed. Never allocates.
    pub fn fed(&self) -> u64
        ensures { result ≡ fed_of self.now }
    {
        self.fed
    }

    /// How many of them are no list of TLVs. Never allocates.
    pub fn malformed(&self) -> u64
        ensures { result ≡ malformed_of self.now }
    {
        self.malformed
    }

    /// What is seen of each node, in ascending order of identifier.
    ///
    /// # Errors
    ///
    /// Out of memory.
    pub fn seen(&self, alloc: Global) -> Result<Sequence<Seen>, NoMemory>
        ensures { IfOk result (λ seen. (shown : List Shown) → Holds shown self.now → AreSeen shown seen) }
    {
        self.remembered.seen(alloc)
    }
}
