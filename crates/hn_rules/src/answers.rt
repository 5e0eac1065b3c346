//! The answers of an arrival.

ghost use Rattle.std.specs.Prelude.{◌≡◌, ◌∷◌, [], ◌++◌, IfOk, OnOk, map};
ghost use Rattle.hn_tlv.specs.Grammar.{spelling};
ghost use Rattle.hn_typed.specs.Item.{PlainItem};
ghost use Rattle.hn_typed.specs.Written.{tlv_of};
ghost use Rattle.hn_rules.specs.Answers.{same_subject, is_answered, with_answer};

use crate::running::Running;
use hn_base::{Bytes, NoMemory, NodeId};
use std::alloc::Global;

/// What an answer is about (RFC 7787, sections 7.1 and 7.2).
#[derive(Clone, Copy)]
pub enum Subject {
    /// A Request Network State.
    NetworkRequest,
    /// The Network State.
    NetworkState,
    /// A Request Node State of a node.
    NodeRequest(NodeId),
    /// The Node State of a node, without its data.
    NodeState(NodeId),
    /// The Node State of a node, with its data.
    NodeData(NodeId),
}

/// An answer, as it was when it came up.
#[derive(Drop)]
pub struct Answer {
    pub subject: Subject,
    /// The TLV as it is written.
    pub tlv: Bytes,
}

impl Subject {
    /// Whether two answers are about the same.
    fn is(&self, other: &Subject) -> bool
        ensures { result ≡ same_subject self.now other.now }
    {
        match (self, other) {
            (Subject::NetworkRequest, Subject::NetworkRequest)
            | (Subject::NetworkState, Subject::NetworkState) => true,
            (Subject::NodeRequest(a), Subject::NodeRequest(b))
            | (Subject::NodeState(a), Subject::NodeState(b))
            | (Subject::NodeData(a), Subject::NodeData(b)) => a == b,
            _ => false,
        }
    }
}

impl Running {
    /// Whether there is an answer about that.
    pub(crate) fn is_answered(&self, subject: Subject) -> bool
        ensures { result ≡ is_answered subject self.now.answers }
    {
        self.answers
            .as_slice()
            .iter()
            .any(|answer| subject.is(&answer.subject))
    }

    /// An answer comes up, and there is none about that yet.
    pub(crate) fn answer(&mut self, subject: Subject, tlv: Bytes) -> Result<(), NoMemory>
        ensures { (item : PlainItem) → tlv ≡ spelling (tlv_of item) → OnOk result (self.new ≡ with_answer subject item self.old) }
    {
        if self.is_answered(subject) {
            return Ok(());
        }
        self.answers.push(Answer { subject, tlv })
    }
}
