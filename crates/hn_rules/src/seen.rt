//! What a router sees of the network, at its moment.

ghost use Rattle.std.specs.Prelude.{◌≡◌, IfOk};
ghost use Rattle.std.specs.Option.{option_map};
ghost use Rattle.hn_data.specs.View.{plain_view};
ghost use Rattle.hn_rules.specs.Nodes.{entry_of, view_of};
ghost use Rattle.hn_rules.specs.Seen.{seen_by};

use crate::state::State;
use hn_base::{NoMemory, NodeId};
use hn_data::{Entry, View};
use std::alloc::Global;

impl State {
    /// A node, if it is the own one or is held. A held one is looked for from this place of the table on, which moves past
    /// it then.
    fn entry(&self, id: NodeId, place: &mut usize) -> Result<Option<Entry>, NoMemory>
        ensures { IfOk result (λ entry. entry ≡ entry_of self.now id) }
    {
        if id == self.id {
            return Ok(Some(self.own_entry()?));
        }
        match self.table.get().next_to(place, id) {
            Some(stored) => Ok(Some(self.entry_with(id, stored)?)),
            None => Ok(None),
        }
    }

    /// The nodes that were reachable at the last refresh, in ascending order of their identifiers.
    ///
    /// # Errors
    ///
    /// Out of memory.
    pub fn seen(&self, alloc: Global) -> Result<Vec<Entry>, NoMemory>
        ensures { IfOk result (λ nodes. nodes.items ≡ view_of self.now) }
    {
        let mut nodes = Vec::with_capacity(alloc, self.reach.get().as_slice().len())?;
        let mut place = 0;
        for id in self.reach.get().as_slice() {
            let entry = self.entry(*id, &mut place)?;
            if let Some(entry) = entry {
                nodes.push(entry)?;
            }
        }
        Ok(nodes)
    }

    /// What the router sees, with these nodes. Never allocates.
    pub fn view<'a>(&self, nodes: &'a [Entry]) -> View<'a>
        requires { nodes.now ≡ view_of self.now }
        ensures { plain_view result ≡ seen_by self.now }
    {
        View {
            own: self.id,
            now: self.moment.get(),
            nodes,
        }
    }
}
