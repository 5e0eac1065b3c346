//! A tick: silent peers, ended delegated prefixes and lost nodes go, prefixes are assigned, and then each endpoint sends
//! what is due.

ghost use Rattle.std.specs.Prelude.{◌≡◌, OnOk};
ghost use Rattle.hn_rules.specs.Router.{IsRouter};
ghost use Rattle.hn_rules.specs.Rules.{Ran};
ghost use Rattle.hn_rules.specs.Ticks.{IsLosing, IsSettling, IsTick};

use crate::laws::{refresh_makes_a_router, rules_keep_a_router, rules_keep_the_rest};
use crate::reaching::Touched;
use crate::running::Running;
use hn_base::NoMemory;
use hn_io::Draw;
use std::alloc::Global;

impl Running {
    /// CameToNothing peers and ended delegated prefixes go, and a refresh.
    fn lose<D: Draw>(&mut self, alloc: Global, draw: &mut D) -> Result<(), NoMemory>
        requires { IsRouter self.old.state }
        ensures ran { OnOk result (Ran IsLosing (D.words draw.old) (D.words draw.new) self.old self.new) }
        ensures router { OnOk result (IsRouter self.new.state) }
    {
        refresh_makes_a_router();
        rules_keep_the_rest();
        let expired = self.expire_ports(alloc)?;
        let ended = self.end_prefixes()?;
        let touched = Touched {
            any: expired | ended,
            links: false,
        };
        self.refresh_after(alloc, touched, draw)
    }

    /// Prefixes are assigned, and a refresh.
    fn settle<D: Draw>(&mut self, alloc: Global, draw: &mut D) -> Result<(), NoMemory>
        requires { IsRouter self.old.state }
        ensures { OnOk result (Ran IsSettling (D.words draw.old) (D.words draw.new) self.old self.new) }
    {
        let any = self.assign(alloc, draw)?;
        self.refresh_after(alloc, Touched { any, links: false }, draw)
    }

    /// A tick.
    ///
    /// # Errors
    ///
    /// Out of memory. No clause says what the `Running` is then.
    pub fn tick<D: Draw>(&mut self, alloc: Global, draw: &mut D) -> Result<(), NoMemory>
        requires { IsRouter self.old.state }
        ensures { OnOk result (Ran IsTick (D.words draw.old) (D.words draw.new) self.old self.new) }
    {
        rules_keep_a_router();
        self.lose(alloc, draw)?;
        self.forget()?;
        self.settle(alloc, draw)?;
        self.tick_ports(alloc, draw)
    }
}
