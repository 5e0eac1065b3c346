ghost use Rattle.std.specs.Prelude.{◌≡◌, None, IfSome};
ghost use Rattle.hn_world.specs.SeenWorld.{world_parts};
ghost use Rattle.hn_world.specs.Replay.{IsReplayed, Always, Throughout};
ghost use Rattle.hn_world.specs.Authentic.{AuthenticUnlessInjected};
ghost use Rattle.hn_world.specs.Leaves.{EqualHashesAgree};
ghost use Rattle.hn_world.specs.Within.{AreWithinLimits};
ghost use Rattle.hn_audit.specs.Lasting.{CalmStaysInTurns};
ghost use Rattle.hn_audit.specs.Laws.{SettledElectAlike};
ghost use Rattle.hn_audit.specs.Staying.{QuietStays};
ghost use Rattle.hn_plain.specs.Plain.{SettledAreSound};
ghost use Rattle.hn_told.specs.Told.{HostsAreToldApart};

use hn_audit::{calm_homes_always_stay, quiet_homes_always_stay, settled_elect_alike};
use hn_forms::NodeEnd;
use hn_lab::Played;
use hn_node::Served;
use hn_plain::plainly_sound;
use hn_told::hosts_are_told_apart;
use hn_world::{World, always_authentic, always_within_limits, equal_hashes_always_agree};

/// What a run of the program came to.
#[derive(Drop)]
pub struct Outcome {
    /// The exit status.
    pub status: u8,
    /// The world that a script led to, also where a line was refused, or the sink or the wire failed.
    pub world: Option<World>,
    /// What came of a router that was served.
    pub served: Option<Served>,
}

impl Outcome {
    /// A status with nothing beside it. Never allocates.
    pub fn of(status: u8) -> Outcome
        ensures status { result.status ≡ status }
        ensures no_world { result.world ≡ None }
        ensures not_served { result.served ≡ None }
    {
        Outcome {
            status,
            world: None,
            served: None,
        }
    }

    /// What `node` came to. Never allocates.
    pub(crate) fn of_node(end: NodeEnd) -> Outcome
        ensures status { result.status ≡ end.status }
        ensures no_world { result.world ≡ None }
        ensures served { result.served ≡ end.served }
    {
        Outcome {
            status: end.status,
            world: None,
            served: end.served,
        }
    }

    /// The exit status alone; the world is let go. Never allocates.
    pub fn status(self) -> u8
        ensures { result ≡ self.status }
    {
        self.status
    }

    /// What a play came to. Its world is the replay of its trace, so the laws of such worlds hold of it. Never allocates.
    pub(crate) fn of_play(played: Played) -> Outcome
        requires replayed { IfSome (world_parts played.world) IsReplayed }
        ensures status { result.status ≡ played.status }
        ensures world { result.world ≡ played.world }
        ensures not_served { result.served ≡ None }
        ensures headline { IfSome (world_parts result.world) (Always EqualHashesAgree) }
        ensures settled { IfSome (world_parts result.world) (Always SettledAreSound) }
        ensures elected { IfSome (world_parts result.world) (Always SettledElectAlike) }
        ensures told { IfSome (world_parts result.world) (Always HostsAreToldApart) }
        ensures stays { IfSome (world_parts result.world) (Throughout QuietStays) }
        ensures turns { IfSome (world_parts result.world) (Always CalmStaysInTurns) }
        ensures within_limits { IfSome (world_parts result.world) (Always AreWithinLimits) }
        ensures authentic { IfSome (world_parts result.world) (Always AuthenticUnlessInjected) }
    {
        equal_hashes_always_agree();
        plainly_sound();
        settled_elect_alike();
        hosts_are_told_apart();
        quiet_homes_always_stay();
        calm_homes_always_stay();
        always_within_limits();
        always_authentic();
        Outcome {
            status: played.status,
            world: played.world,
            served: None,
        }
    }
}
