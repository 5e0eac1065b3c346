ghost use Rattle.std.specs.Prelude.{◌≡◌, ◌↔◌, ◌+◌, ◌<◌, ℕ, suc, IsSome, IfOk, None, Some, length, count_by, option_copied};
ghost use Rattle.std.specs.Option.{option_map};
ghost use Rattle.hn_base.specs.Name.{name_text};
ghost use Rattle.hn_rules.specs.Nodes.{leaves_of};
ghost use Rattle.hn_world.specs.declared.member.Member.{Member};
ghost use Rattle.hn_world.specs.Existing.{AgreeSomehow};
ghost use Rattle.hn_world.specs.Names.{member_named};
ghost use Rattle.hn_world.specs.Waiting.{first_waiting};
ghost use Rattle.hn_world.specs.Refusal.{copy_at};
ghost use Rattle.hn_world.specs.Leaves.{Agrees, HasInfo};

use crate::copies::CopyInfo;
use crate::laws::{agreement_exists, copies_have_receivers};
use crate::world::World;
use hn_base::{Name, NoMemory};
use hn_hash::{Agreement, agree};
use std::alloc::Global;

impl World {
    /// It cannot be that the routers of two names agree in no way. Changes nothing: call it to know its law.
    fn agree_somehow(&self, a: &Name, b: &Name)
        ensures { AgreeSomehow a.now b.now self.now.parts }
    {
        agreement_exists();
        self.is_replayed();
    }

    /// How two routers of the world agree: whether their network state hashes differ, their lists of leaves are the
    /// same, or two inputs collide. Whether there is memory or not, it cannot be that they agree in no way; with
    /// `agreement_is_unique` there is exactly one.
    ///
    /// # Errors
    ///
    /// Out of memory.
    pub fn compare(&self, alloc: Global, a: &Name, b: &Name) -> Result<Agreement, NoMemory>
        requires left { IsSome (member_named (name_text a.now) self.now.parts) }
        requires right { IsSome (member_named (name_text b.now) self.now.parts) }
        ensures compared { IfOk result (λ agreement. (m n : Member)
            → member_named (name_text a.now) self.now.parts ≡ Some m
            → member_named (name_text b.now) self.now.parts ≡ Some n
            → Agrees (leaves_of m.router) (leaves_of n.router) agreement) }
        ensures exists { AgreeSomehow a.now b.now self.now.parts }
    {
        self.agree_somehow(a, b);
        let (Some(left), Some(right)) = (self.router(a), self.router(b)) else {
            unreachable!()
        };
        let left = left.leaves(alloc)?;
        let right = right.leaves(alloc)?;
        agree(alloc, left.as_slice(), right.as_slice())
    }

    /// How many copies were made. Never allocates.
    pub fn copies(&self) -> u64
        ensures { result ≡ length self.now.parts.copies }
    {
        self.parts.copies.len() as u64
    }

    /// How many copies wait. Never allocates.
    pub fn waiting(&self) -> u64
        ensures { result ≡ count_by (λ c. c.waiting) self.now.parts.copies }
    {
        self.parts.copies.waiting() as u64
    }

    /// The least number of a copy that waits; `None` if and only if none waits. Never allocates.
    pub fn next_waiting(&self) -> Option<u64>
        ensures { result ≡ option_map suc (first_waiting self.now.parts.copies) }
    {
        let place = self.parts.copies.first_waiting()?;
        Some(place as u64 + 1)
    }

    /// The bytes of a copy; `None` if and only if there is no copy of that number. Never allocates.
    pub fn copy_bytes(&self, copy: u64) -> Option<&[u8]>
        ensures { option_map (λ b. b.now) result ≡ option_map (λ c. c.bytes) (copy_at self.now.parts copy) }
    {
        let mail = self.parts.copy_at(copy)?;
        Some(mail.bytes.get().as_slice())
    }

    /// Where a copy goes, from where, and whether it waits; `None` if and only if there is no copy of that number. Never
    /// allocates.
    pub fn copy_info(&self, copy: u64) -> Option<CopyInfo>
        ensures info { HasInfo self.now.parts (copy_at self.now.parts copy) result }
        ensures none { (result ≡ None) ↔ (copy_at self.now.parts copy ≡ None) }
    {
        copies_have_receivers();
        let mail = self.parts.copy_at(copy)?;
        let member = self.parts.members.get(mail.to.place)?;
        Some(CopyInfo {
            to: member.name,
            endpoint: mail.to.endpoint,
            from: mail.from,
            multicast: mail.multicast,
            waiting: mail.waiting,
        })
    }
}
