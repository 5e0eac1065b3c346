//! `node`: a router that is set up by its file, and served.

ghost use Rattle.std.specs.Prelude.{◌≡◌, ◌≢◌, ◌≤◌, ◌^◌, ◌⊎◌, ◌+◌, ℕ, List, [], ◌∷◌, All, Err, OnOk, OnErr, IfOk, IfSome, Contains, None, Some, length, string_bytes};
ghost use Rattle.std.specs.Io.KnownBytes.{Appends, Consumes};
ghost use Rattle.hn_io.specs.Faults.{IsCaused};
ghost use Rattle.hn_streams.specs.Output.{AppendsPart};
ghost use Rattle.hn_streams.specs.Refusal.{refused_line};
ghost use Rattle.hn_node.specs.Turns.{IsBounded};
ghost use Rattle.hn_node.specs.declared.served.ServeEnd.{ServeEnd};
ghost use Rattle.hn_script.specs.NodeFile.{IsNodeFile};
ghost use Rattle.hn_base.specs.declared.version.Version.TheVariants.{One};
ghost use Rattle.hn_world.specs.Within.{IsWithinLimits};
ghost use Rattle.hn_forms.specs.Node.{IsCall, IsOverfull, IsNodeRun, MakesNode, StatusOfNode, LineHolds, served_line, plain_call};

use crate::node_end::NodeEnd;
use crate::setup::{SetupFault, set_up};
use crate::status::{
    DONE, NO_MEMORY, REFUSED, SINK_FAILED, SOURCE_FAILED, WIRE_FAILED, written_status,
};
use crate::words::NodeCall;
use hn_base::NoMemory;
use hn_io::{IoFault, Pcg, Sink, Source, words_join};
use hn_node::{ServeEnd, Served, serve};
use hn_router::limit_stays;
use hn_script::{
    NodeLine, ParseFault, fault_excludes_node_file, node_file_is_unique, parse_node_file,
};
use hn_streams::{read_all, write_piece, write_refusal};
use hn_wire::{Clock, Wire};
use hn_world::router_is_within_limits;
use std::alloc::{AllocError, Global};

/// The code of a ninth delegated prefix.
const FULL: u8 = 9;

/// The line on a router that was served.
fn node_line(alloc: Global, served: &Served) -> Result<String, AllocError>
    ensures { IfOk result (λ line. string_bytes line ≡ served_line served.now) }
{
    let id = served.router.id();
    let number = served.router.number();
    let reach = served.router.reach().len();
    let taken = served.taken;
    let sent = served.sent;
    format!(in alloc; "node id={id} number={number} reach={reach} taken={taken} sent={sent}\n")
}

/// Writes that line.
fn write_served<K: Sink>(alloc: Global, served: &Served, out: &mut K) -> Result<(), IoFault>
    ensures ok { OnOk result (Appends (K.held out.old) (K.held out.new) (served_line served.now)) }
    ensures cut { OnErr result (AppendsPart (K.held out.old) (K.held out.new) (served_line served.now)) }
    ensures caused { IsCaused (result ≡ Err IoFault.Failed) (K.faults out.old) (K.faults out.new)
        (K.never_fails out.old) (K.never_fails out.new) }
{
    match node_line(alloc, served) {
        Ok(line) => write_piece(out, line.as_bytes()),
        Err(_) => Err(IoFault::NoMemory),
    }
}

/// Writes the line of a refusal.
fn refuse<K: Sink>(alloc: Global, line: u32, code: u8, out: &mut K) -> NodeEnd
    ensures holds { (written : List ℕ) × LineHolds result.status (refused_line line code) written × Appends (K.held out.old) (K.held out.new) written }
    ensures not_served { result.served ≡ None }
    ensures statuses { Contains (REFUSED ∷ SINK_FAILED ∷ NO_MEMORY ∷ []) result.status }
    ensures caused { IsCaused (result.status ≡ SINK_FAILED) (K.faults out.old) (K.faults out.new)
        (K.never_fails out.old) (K.never_fails out.new) }
{
    NodeEnd::of(written_status(&write_refusal(alloc, out, line, code), REFUSED))
}

/// Tells of a router that was served; nothing where the wire failed.
fn tell<K: Sink>(alloc: Global, served: Served, out: &mut K) -> NodeEnd
    ensures told { served.end ≡ ServeEnd.Turns → (written : List ℕ) × LineHolds result.status (served_line served) written
        × Appends (K.held out.old) (K.held out.new) written × Contains (DONE ∷ SINK_FAILED ∷ NO_MEMORY ∷ []) result.status }
    ensures untold { served.end ≡ ServeEnd.WireFault → (result.status ≡ WIRE_FAILED) × (out.new ≡ out.old) }
    ensures served { ((result.status ≡ NO_MEMORY) × (result.served ≡ None)) ⊎ ((result.status ≢ NO_MEMORY) × (result.served ≡ Some served)) }
    ensures caused { IsCaused (result.status ≡ SINK_FAILED) (K.faults out.old) (K.faults out.new)
        (K.never_fails out.old) (K.never_fails out.new) }
{
    if let ServeEnd::WireFault = served.end {
        return NodeEnd {
            status: WIRE_FAILED,
            served: Some(served),
        };
    }
    let status = written_status(&write_served(alloc, &served, out), DONE);
    if status == NO_MEMORY {
        return NodeEnd::of(NO_MEMORY);
    }
    NodeEnd {
        status,
        served: Some(served),
    }
}

/// Sets a router up by the lines of its file, serves it, and tells of it.
fn serve_lines<K: Sink, W: Wire, C: Clock>(
    alloc: Global,
    call: &NodeCall,
    lines: &[(u32, NodeLine)],
    out: &mut K,
    wire: &mut W,
    clock: &mut C,
) -> NodeEnd
    requires call { IsCall call.now }
    ensures node { (bytes : List ℕ) → IsNodeFile lines.now bytes → (text : List ℕ) × MakesNode (plain_call call.now) bytes result.status result.served
        (record { waiting = W.waiting wire.old; readings = C.readings clock.old }) (record { waiting = W.waiting wire.new; readings = C.readings clock.new }) text
        × ((written : List ℕ) × LineHolds result.status text written × Appends (K.held out.old) (K.held out.new) written) }
    ensures overfull { (now number : ℕ) → IsOverfull call.now.id lines.now now number → (result.status ≢ DONE) × (result.status ≢ WIRE_FAILED) }
    ensures done { ((now number : ℕ) → ¬ IsOverfull call.now.id lines.now now number) → result.status ≢ REFUSED }
    ensures within { IfSome result.served (λ s. IsWithinLimits One s.router × All IsBounded s.log) }
    ensures nothing { result.status ≡ NO_MEMORY → result.served ≡ None }
    ensures statuses { Contains (DONE ∷ REFUSED ∷ SINK_FAILED ∷ WIRE_FAILED ∷ NO_MEMORY ∷ []) result.status }
    ensures sink_caused { IsCaused (result.status ≡ SINK_FAILED) (K.faults out.old) (K.faults out.new)
        (K.never_fails out.old) (K.never_fails out.new) }
    ensures wire_caused { IsCaused (result.status ≡ WIRE_FAILED) (W.faults wire.old) (W.faults wire.new)
        (W.never_fails wire.old) (W.never_fails wire.new) }
{
    words_join();
    limit_stays();
    router_is_within_limits();
    let now = clock.now();
    let mut draw = Pcg::new(call.seed);
    let router = match set_up(alloc, call.id, lines, now, &mut draw) {
        Ok(router) => router,
        Err(SetupFault::Overfull(number)) => return refuse(alloc, number, FULL, out),
        Err(SetupFault::NoMemory) => return NodeEnd::of(NO_MEMORY),
    };
    let peers = &call.peers[..usize::from(call.count)];
    match serve(
        alloc, router, call.port, peers, wire, clock, &mut draw, call.turns,
    ) {
        Ok(served) => {
            served.router.is_router();
            tell(alloc, served, out)
        }
        Err(NoMemory) => NodeEnd::of(NO_MEMORY),
    }
}

/// Serves the router of the node file that bytes are, or writes the line of their first fault.
fn node_of<K: Sink, W: Wire, C: Clock>(
    alloc: Global,
    call: &NodeCall,
    bytes: &[u8],
    out: &mut K,
    wire: &mut W,
    clock: &mut C,
) -> NodeEnd
    requires call { IsCall call.now }
    ensures node { (text : List ℕ) × MakesNode (plain_call call.now) bytes.now result.status result.served
        (record { waiting = W.waiting wire.old; readings = C.readings clock.old }) (record { waiting = W.waiting wire.new; readings = C.readings clock.new }) text
        × ((written : List ℕ) × LineHolds result.status text written × Appends (K.held out.old) (K.held out.new) written) }
    ensures only { StatusOfNode (plain_call call.now) bytes.now result.status }
    ensures within { IfSome result.served (λ s. IsWithinLimits One s.router × All IsBounded s.log) }
    ensures nothing { result.status ≡ NO_MEMORY → result.served ≡ None }
    ensures statuses { Contains (DONE ∷ REFUSED ∷ SINK_FAILED ∷ WIRE_FAILED ∷ NO_MEMORY ∷ []) result.status }
    ensures sink_caused { IsCaused (result.status ≡ SINK_FAILED) (K.faults out.old) (K.faults out.new)
        (K.never_fails out.old) (K.never_fails out.new) }
    ensures wire_caused { IsCaused (result.status ≡ WIRE_FAILED) (W.faults wire.old) (W.faults wire.new)
        (W.never_fails wire.old) (W.never_fails wire.new) }
{
    node_file_is_unique();
    fault_excludes_node_file();
    match parse_node_file(alloc, bytes) {
        Ok(lines) => serve_lines(alloc, call, lines.as_slice(), out, wire, clock),
        Err(ParseFault::Script(fault)) => refuse(alloc, fault.line, fault.code, out),
        Err(ParseFault::NoMemory) => NodeEnd::of(NO_MEMORY),
    }
}

/// Reads a node file, serves the router that it sets up in turns over the wire, and writes a line on it.
pub fn node<S: Source, K: Sink, W: Wire, C: Clock>(
    alloc: Global,
    call: &NodeCall,
    src: &mut S,
    out: &mut K,
    wire: &mut W,
    clock: &mut C,
) -> NodeEnd
    requires call { IsCall call.now }
    ensures node { result.status ≢ SOURCE_FAILED → IsNodeRun (plain_call call.now) (S.left src.old) result.status result.served
        (record { waiting = W.waiting wire.old; readings = C.readings clock.old }) (record { waiting = W.waiting wire.new; readings = C.readings clock.new })
        (K.held out.old) (K.held out.new) }
    ensures within { IfSome result.served (λ s. IsWithinLimits One s.router × All IsBounded s.log) }
    ensures nothing { (result.status ≡ SOURCE_FAILED) ⊎ (result.status ≡ NO_MEMORY) → result.served ≡ None }
    ensures statuses { Contains (DONE ∷ REFUSED ∷ SOURCE_FAILED ∷ SINK_FAILED ∷ WIRE_FAILED ∷ NO_MEMORY ∷ []) result.status }
    ensures unstarted { result.status ≡ SOURCE_FAILED → (out.new ≡ out.old) × (wire.new ≡ wire.old) × (clock.new ≡ clock.old) }
    ensures source_caused { IsCaused (result.status ≡ SOURCE_FAILED) (S.faults src.old) (S.faults src.new)
        (S.never_fails src.old) (S.never_fails src.new) }
    ensures sink_caused { IsCaused (result.status ≡ SINK_FAILED) (K.faults out.old) (K.faults out.new)
        (K.never_fails out.old) (K.never_fails out.new) }
    ensures wire_caused { IsCaused (result.status ≡ WIRE_FAILED) (W.faults wire.old) (W.faults wire.new)
        (W.never_fails wire.old) (W.never_fails wire.new) }
    ensures bounded { (read : List ℕ) × (length read ≤ 2 ^ 24 + 1) × Consumes (S.left src.old) (S.left src.new) read }
{
    match read_all(alloc, src) {
        Ok(bytes) => node_of(alloc, call, &bytes, out, wire, clock),
        Err(IoFault::Failed) => NodeEnd::of(SOURCE_FAILED),
        Err(IoFault::NoMemory) => NodeEnd::of(NO_MEMORY),
    }
}
