ghost use Rattle.std.specs.Prelude.{◌≡◌, ◌≤◌, ◌^◌, ◌++◌, ◌∷◌, [], map, IfOk, OnOk};
ghost use Rattle.hn_rules.specs.Rules.{begun_at, noted, with_port};

use crate::answers::Answer;
use crate::done::{Done, Note, Outgoing};
use crate::present::Present;
use crate::state::State;
use hn_base::{Addr, EpId, Moment, NoMemory, NodeId, Sequence, Shared};
use hn_dncp::{Datagrams, Port};
use std::alloc::Global;

/// Where a datagram came from, and to which endpoint.
#[derive(Clone, Copy)]
pub struct Origin {
    pub endpoint: EpId,
    pub from: Addr,
    pub multicast: bool,
}

/// A router in the middle of an event, what came of it so far, and what an arrival carries from TLV to TLV.
///
/// After out of memory no clause says what it is: `Router::plan` of `hn_router` works on a copy, and drops it.
#[derive(Drop)]
pub struct Running {
    pub state: State,
    pub done: Done,
    /// The sender of the datagram, once it is named.
    pub sender: Option<(NodeId, EpId)>,
    pub answers: Sequence<Answer>,
}

impl Running {
    /// Where an event begins.
    ///
    /// # Errors
    ///
    /// Out of memory.
    pub fn begin(alloc: Global, state: &State, now: Moment) -> Result<Running, NoMemory>
        requires { now ≤ 2 ^ 48 }
        ensures { IfOk result (λ begun. begun ≡ begun_at now state.now) }
    {
        let mut state = state.copy()?;
        state.moment = Present::new(now);
        Ok(Running {
            state,
            done: Done::new(alloc),
            sender: None,
            answers: Sequence::new(alloc),
        })
    }

    /// Takes a note.
    ///
    /// # Errors
    ///
    /// Out of memory. No clause says what the `Running` is then.
    pub fn note(&mut self, note: Note) -> Result<(), NoMemory>
        ensures { OnOk result (self.new ≡ noted note self.old) }
    {
        self.done.notes.push(note)
    }

    /// Changes an endpoint.
    pub(crate) fn put_port(&mut self, alloc: Global, port: Port) -> Result<(), NoMemory>
        ensures { OnOk result (self.new ≡ with_port port self.old) }
    {
        let ports = self.state.ports.get().with(alloc, port)?;
        self.state.ports = Shared::new(alloc, ports)?;
        Ok(())
    }

    /// Sends datagrams on an endpoint.
    pub(crate) fn send(
        &mut self,
        endpoint: EpId,
        to: Option<Addr>,
        datagrams: Datagrams,
    ) -> Result<(), NoMemory>
        ensures { OnOk result (self.new ≡ record self.old {
          done = record self.old.done {
            sends = self.old.done.sends ++ map (λ bytes. record { endpoint = endpoint; to = to; bytes = bytes }) datagrams;
          };
        }) }
    {
        for bytes in datagrams.into_vec() {
            self.done.sends.push(Outgoing {
                endpoint,
                to,
                bytes,
            })?;
        }
        Ok(())
    }
}
