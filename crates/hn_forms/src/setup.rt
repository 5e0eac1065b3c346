//! The router that `node` serves at first.

ghost use Rattle.std.specs.Prelude.{◌≡◌, ◌≤◌, ◌^◌, ◌∷◌, [], ℕ, List, Err, IfOk, OnOk, IsTrue};
ghost use Rattle.hn_base.specs.Words.{Took};
ghost use Rattle.hn_own.specs.Ports.{endpoints_of, is_attached};
ghost use Rattle.hn_router.specs.Act.{Happened, plain_event};
ghost use Rattle.hn_rules.specs.declared.done.Done.{Done};
ghost use Rattle.hn_forms.specs.Node.{IsSetUp, IsOverfull, node_event_of, is_too_many};
ghost use Rattle.hn_forms.specs.declared.setup.SetupFault.TheVariants as fault;

use hn_base::{EpId, Moment, NoMemory, NodeId};
use hn_io::{Draw, words_join};
use hn_router::{Event, Router, endpoints_follow, moment_is_now};
use hn_script::NodeLine;
use std::alloc::Global;

/// The endpoint of a node.
const ENDPOINT: EpId = EpId(1);

/// Why no router was set up.
pub enum SetupFault {
    /// The line of this number is a ninth delegated prefix.
    Overfull(u32),
    /// Out of memory.
    NoMemory,
}

impl From<NoMemory> for SetupFault {
    ghost use Rattle.std.specs.Prelude.{◌≡◌};
    ghost use Rattle.hn_forms.specs.declared.setup.SetupFault.TheVariants as fault;

    ghost from_gives = { λ _ e. e ≡ fault.NoMemory };

    fn from(_error: NoMemory) -> SetupFault {
        SetupFault::NoMemory
    }
}

/// An event happens to the router.
fn happens<D: Draw>(
    alloc: Global,
    router: &mut Router,
    event: &Event<'_>,
    now: Moment,
    draw: &mut D,
) -> Result<(), NoMemory>
    requires moment { router.old.moment ≡ now }
    requires in_range { now ≤ 2 ^ 48 }
    ensures happened { OnOk result ((done : Done) × Happened now (plain_event event.now) router.old router.new done × Took (D.words draw.old) done.words (D.words draw.new)) }
    ensures moment { OnOk result (router.new.moment ≡ now) }
{
    moment_is_now();
    router.act(alloc, event, now, draw)?;
    Ok(())
}

/// A new router with its endpoint attached.
fn begin<D: Draw>(alloc: Global, id: NodeId, now: Moment, draw: &mut D) -> Result<Router, NoMemory>
    requires { now ≤ 2 ^ 48 }
    ensures set_up { IfOk result (λ router. (words : List ℕ) × IsSetUp id [] now words router × Took (D.words draw.old) words (D.words draw.new)) }
    ensures ends { IfOk result (λ router. endpoints_of router.ports ≡ (record { 0 = 1 }) ∷ []) }
    ensures moment { IfOk result (λ router. router.moment ≡ now) }
{
    endpoints_follow();
    let mut router = Router::new(alloc, id, now)?;
    let attach = Event::Attach { endpoint: ENDPOINT };
    match happens(alloc, &mut router, &attach, now, draw) {
        Ok(()) => return Ok(router),
        Err(error) => {
            drop(router);
            return Err(error);
        }
    }
}

/// Whether a line is a delegated prefix that the router may not have.
fn is_too_many(router: &Router, line: &NodeLine) -> bool
    ensures { result ≡ is_too_many router.now line.now }
{
    match line {
        NodeLine::External(prefix, _, _) => !router.may_have(prefix),
        NodeLine::Caps(_) => false,
    }
}

/// A line of the file happens to the router.
fn apply<D: Draw>(
    alloc: Global,
    router: &mut Router,
    line: &NodeLine,
    now: Moment,
    draw: &mut D,
) -> Result<(), NoMemory>
    requires moment { router.old.moment ≡ now }
    requires in_range { now ≤ 2 ^ 48 }
    ensures happened { OnOk result ((done : Done) × Happened now (node_event_of line.now) router.old router.new done × Took (D.words draw.old) done.words (D.words draw.new)) }
    ensures ends { OnOk result (endpoints_of router.new.ports ≡ endpoints_of router.old.ports) }
    ensures moment { OnOk result (router.new.moment ≡ now) }
{
    endpoints_follow();
    let event = match line {
        NodeLine::Caps(caps) => Event::Caps { caps: *caps },
        NodeLine::External(prefix, valid, preferred) => Event::External {
            prefix: *prefix,
            valid: *valid,
            preferred: *preferred,
        },
    };
    happens(alloc, router, &event, now, draw)
}

/// The router of an identifier, set up by the lines of a node file at a moment.
///
/// # Errors
///
/// A ninth delegated prefix, and out of memory.
pub fn set_up<D: Draw>(
    alloc: Global,
    id: NodeId,
    lines: &[(u32, NodeLine)],
    now: Moment,
    draw: &mut D,
) -> Result<Router, SetupFault>
    requires { now ≤ 2 ^ 48 }
    ensures set_up { IfOk result (λ router. (words : List ℕ) × IsSetUp id lines.now now words router × Took (D.words draw.old) words (D.words draw.new)) }
    ensures overfull { (number : ℕ) → result ≡ Err (fault.Overfull number) → IsOverfull id lines.now now number }
    ensures attached { IfOk result (λ router. IsTrue (is_attached (record { 0 = 1 }) router.ports)) }
    ensures moment { IfOk result (λ router. router.moment ≡ now) }
{
    words_join();
    let mut router = begin(alloc, id, now, draw)?;
    for (number, line) in lines {
        if is_too_many(&router, line) {
            drop(router);
            return Err(SetupFault::Overfull(*number));
        }
        let Ok(()) = apply(alloc, &mut router, line, now, draw) else {
            drop(router);
            return Err(SetupFault::NoMemory);
        };
    }
    Ok(router)
}
