ghost use Rattle.std.specs.Prelude.{◌≡◌, ◌≢◌, ◌||◌, not, [], IfOk, OnOk, false};
ghost use Rattle.hn_typed.specs.Item.{RequestNetwork};
ghost use Rattle.hn_dncp.specs.declared.greet.Greet.TheVariants.{Added};
ghost use Rattle.hn_dncp.specs.Ask.{may_ask};
ghost use Rattle.hn_dncp.specs.Greet.{greeting};
ghost use Rattle.hn_dncp.specs.Peers.{has_peer};
ghost use Rattle.hn_rules.specs.declared.done.Note.TheVariants.{Ignored};
ghost use Rattle.hn_rules.specs.declared.answers.Subject.TheVariants.{NetworkRequest};
ghost use Rattle.hn_rules.specs.Rules.{AtPort, noted, with_port};
ghost use Rattle.hn_rules.specs.Answers.{with_answer};
ghost use Rattle.hn_rules.specs.Router.{IsUntouched};
ghost use Rattle.hn_rules.specs.NodeEndpoint.{asking, met, named, node_endpoint};

use crate::answers::Subject;
use crate::done::Note;
use crate::running::{Origin, Running};
use hn_base::{EpId, Moment, NoMemory, NodeId};
use hn_data::encode;
use hn_dncp::{Greet, Port};
use hn_typed::{Item, NODE_ENDPOINT};
use std::alloc::Global;

/// A Node Endpoint with endpoint 0.
const NO_ENDPOINT: u8 = 7;

/// A Node Endpoint with the own identifier.
const OWN_IDENTIFIER: u8 = 6;

/// A Node Endpoint after one that was accepted.
const SENDER_NAMED: u8 = 5;

/// Whether a Node Endpoint by multicast changes nothing at an endpoint: the sender is a peer, or the endpoint may not
/// ask for the network state.
pub(crate) fn stays_at(port: &Port, node: NodeId, endpoint: EpId, now: Moment) -> bool
    ensures { result ≡ (has_peer node endpoint port.now.peers || not (may_ask now port.now.asked)) }
{
    !port.may_ask(now) || port.peers.has(node, endpoint)
}

impl Running {
    /// Takes note of a Node Endpoint that is refused. It touches nothing.
    fn refuse_endpoint(&mut self, why: u8) -> Result<bool, NoMemory>
        ensures rule { OnOk result (self.new ≡ noted (Ignored 3 why) self.old) }
        ensures untouched { IfOk result (λ touched. touched ≡ false → IsUntouched self.old.state self.new.state) }
    {
        self.note(Note::Ignored {
            kind: NODE_ENDPOINT,
            why,
        })?;
        Ok(false)
    }

    /// A Request Network State comes up.
    pub(crate) fn request_state(&mut self, alloc: Global) -> Result<(), NoMemory>
        ensures { OnOk result (self.new ≡ with_answer NetworkRequest (RequestNetwork []) self.old) }
    {
        let tlv = encode(alloc, &Item::RequestNetwork { subs: &[] })?;
        self.answer(Subject::NetworkRequest, tlv)
    }

    /// The endpoint asks for the network state, if it may.
    fn ask(&mut self, alloc: Global, mut port: Port) -> Result<(), NoMemory>
        ensures { OnOk result (self.new ≡ asking port self.old) }
    {
        if port.ask(self.state.moment.get()) {
            self.put_port(alloc, port)?;
            self.request_state(alloc)?;
        }
        Ok(())
    }

    /// The endpoint after it greeted the sender, and what comes of the greeting beside its peers.
    fn meet(&mut self, alloc: Global, greet: Greet, port: Port) -> Result<(), NoMemory>
        ensures { OnOk result (self.new ≡ met greet port (with_port port self.old)) }
    {
        match greet {
            Greet::Full => {
                self.put_port(alloc, port)?;
                self.note(Note::PeersFull)
            }
            Greet::Unknown => {
                self.put_port(alloc, port.clone()?)?;
                self.ask(alloc, port)
            }
            Greet::Known | Greet::Added => self.put_port(alloc, port),
        }
    }

    /// The sender is named, and the endpoint greets it: whether it is a further peer.
    fn name_sender(
        &mut self,
        alloc: Global,
        from: &Origin,
        node: NodeId,
        endpoint: EpId,
        mut port: Port,
    ) -> Result<bool, NoMemory>
        ensures rule { OnOk result (self.new ≡ named from.now node endpoint port self.old) }
        ensures untouched { IfOk result (λ touched. touched ≡ false
            → greeting node endpoint from.now.multicast port.peers ≢ Added) }
    {
        let now = self.state.moment.get();
        let greet = port.greet(node, endpoint, from.from, from.multicast, now)?;
        self.sender = Some((node, endpoint));
        self.meet(alloc, greet, port)?;
        Ok(greet == Greet::Added)
    }

    /// A Node Endpoint (RFC 7787, section 7.2.1): whether it touched what a refresh reads.
    pub(crate) fn node_endpoint(
        &mut self,
        alloc: Global,
        from: &Origin,
        node: NodeId,
        endpoint: EpId,
    ) -> Result<bool, NoMemory>
        ensures rule { OnOk result (AtPort from.now.endpoint (λ port b a. a ≡ node_endpoint from.now node endpoint port b)
            self.old self.new) }
        ensures untouched { IfOk result (λ touched. touched ≡ false → IsUntouched self.old.state self.new.state) }
    {
        let ports = self.state.ports.get();
        let _kept = ports.as_slice();
        let Some(port) = ports.find(from.endpoint) else {
            return Ok(false);
        };
        if endpoint == EpId(0) {
            return self.refuse_endpoint(NO_ENDPOINT);
        }
        if node == self.state.id {
            return self.refuse_endpoint(OWN_IDENTIFIER);
        }
        if self.sender.is_some() {
            return self.refuse_endpoint(SENDER_NAMED);
        }
        if from.multicast && stays_at(port, node, endpoint, self.state.moment.get()) {
            self.sender = Some((node, endpoint));
            return Ok(false);
        }
        let port = port.clone()?;
        let touched = self.name_sender(alloc, from, node, endpoint, port)?;
        Ok(touched)
    }
}
