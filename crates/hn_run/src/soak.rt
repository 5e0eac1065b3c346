ghost use Rattle.std.specs.Prelude.{◌≡◌, ◌≢◌, ◌≤◌, [], ◌∷◌, None, Contains, IfSome};
ghost use Rattle.hn_io.specs.Faults.{IsCaused};
ghost use Rattle.hn_world.specs.SeenWorld.{world_parts};
ghost use Rattle.hn_world.specs.Replay.{IsReplayed};
ghost use Rattle.hn_run.specs.Outcome.{IsSoakRun};

use crate::status::{DONE, NO_MEMORY, REFUSED, SINK_FAILED};
use hn_base::NoMemory;
use hn_io::Sink;
use hn_lab::{Played, lab_is_of_transcript, play};
use hn_script::{
    fault_excludes_script, lines_are_of_version, script_is_limited, script_is_unique, soak_script,
};
use hn_wire::Wire;
use std::alloc::Global;

/// Plays the script of a soak of `n` routers, 2 to 32, and writes its transcript. The wire is not used.
pub fn soak<K: Sink, W: Wire>(alloc: Global, n: u32, seed: u64, out: &mut K, wire: &mut W) -> Played
    requires at_least { 2 ≤ n }
    requires at_most { n ≤ 32 }
    ensures soak { IsSoakRun n seed result.status (world_parts result.world) (K.held out.old) (K.held out.new) }
    ensures no_world { result.status ≡ NO_MEMORY → result.world ≡ None }
    ensures replayed { IfSome (world_parts result.world) IsReplayed }
    ensures statuses { Contains (DONE ∷ REFUSED ∷ SINK_FAILED ∷ NO_MEMORY ∷ []) result.status }
    ensures caused { IsCaused (result.status ≡ SINK_FAILED) (K.faults out.old) (K.faults out.new)
        (K.never_fails out.old) (K.never_fails out.new) }
    ensures unwired { wire.new ≡ wire.old }
{
    script_is_limited();
    lines_are_of_version();
    script_is_unique();
    fault_excludes_script();
    lab_is_of_transcript();
    match soak_script(alloc, n, seed) {
        Ok(script) => play(alloc, script, out, wire, None),
        Err(NoMemory) => Played::without_world(NO_MEMORY),
    }
}
