ghost use Rattle.std.specs.Prelude.{◌≡◌, ◌↔◌, IsTrue, IfOk, IfSome, Some, None, false, filter, map};
ghost use Rattle.hn_base.specs.Name.{name_text};
ghost use Rattle.hn_world.specs.declared.member.Member.{Member};
ghost use Rattle.hn_world.specs.declared.parts.Parts.{Parts};
ghost use Rattle.hn_world.specs.Names.{member_named};
ghost use Rattle.hn_audit.specs.FirstWitness.{IsFirstUnsettled, IsFirstUnquiet};
ghost use Rattle.hn_audit.specs.Fixed.{ChangesNothing, IsFixed, MayChangeNothing, SomeActs};
ghost use Rattle.hn_audit.specs.Quiet.{IsQuietByRules};
ghost use Rattle.hn_audit.specs.Reached.{runs};
ghost use Rattle.hn_audit.specs.Set.{is_in_set};
ghost use Rattle.hn_audit.specs.Settled.{IsSettledByRules};
ghost use Rattle.hn_audit.specs.Sound.{IsSoundByRules};
ghost use Rattle.hn_audit.specs.Witness.{Refutes, Disturbs};

use crate::knowing::first_unlike;
use crate::laws::{rest_is_the_fixed_point, settled_and_quiet_is_sound, witness_refutes};
use crate::reached::{first_unknown, names_of, set_of};
use crate::resting::first_acting;
use crate::spots::{first_on_links, spots_of};
use crate::witness::{Unquiet, Unsettled};
use hn_base::{Name, NoMemory};
use hn_world::{Member, World, always_sound};
use std::alloc::Global;

/// What a world says of a running router and those that it reaches.
pub trait Audit {
    ghost parts: { Self → Parts };

    /// The names of the running routers that a running router reaches, in order of definition: its set.
    ///
    /// # Errors
    ///
    /// Out of memory.
    fn reached(&self, alloc: Global, name: &Name) -> Result<Vec<Name>, NoMemory>
        requires { IsTrue (runs (name_text name.now) (parts self.now)) }
        ensures { IfOk result (λ names. (r : Member) → member_named (name_text name.now) (parts self.now) ≡ Some r
            → names.items ≡ map (λ m. m.name) (filter (is_in_set r.router.reach) (parts self.now).members)) };

    /// Why a running router is not settled: the first witness in the order of the definition; `None` if and only if it
    /// is settled.
    ///
    /// # Errors
    ///
    /// Out of memory.
    fn unsettled(&self, alloc: Global, name: &Name) -> Result<Option<Unsettled>, NoMemory>
        requires { IsTrue (runs (name_text name.now) (parts self.now)) }
        ensures none { IfOk result (λ witness. (r : Member) → member_named (name_text name.now) (parts self.now) ≡ Some r
            → (witness ≡ None) ↔ IsSettledByRules (parts self.now) r) }
        ensures some { IfOk result (λ witness. (r : Member) → member_named (name_text name.now) (parts self.now) ≡ Some r
            → IfSome witness (Refutes (parts self.now) r)) }
        ensures first { IfOk result (λ witness. (r : Member) → member_named (name_text name.now) (parts self.now) ≡ Some r
            → IsFirstUnsettled (parts self.now) r witness) };

    /// Whether a running router is settled: those that it reaches know each other as they are.
    ///
    /// # Errors
    ///
    /// Out of memory.
    fn settled(&self, alloc: Global, name: &Name) -> Result<bool, NoMemory>
        requires { IsTrue (runs (name_text name.now) (parts self.now)) }
        ensures { IfOk result (λ answer. (r : Member) → member_named (name_text name.now) (parts self.now) ≡ Some r
            → IsTrue answer ↔ IsSettledByRules (parts self.now) r) };

    /// Why a running router is not quiet: the first witness in the order of its set; `None` if and only if it is quiet.
    ///
    /// # Errors
    ///
    /// Out of memory.
    fn unquiet(&self, alloc: Global, name: &Name) -> Result<Option<Unquiet>, NoMemory>
        requires { IsTrue (runs (name_text name.now) (parts self.now)) }
        ensures none { IfOk result (λ witness. (r : Member) → member_named (name_text name.now) (parts self.now) ≡ Some r
            → (witness ≡ None) ↔ IsQuietByRules (parts self.now) r) }
        ensures some { IfOk result (λ witness. (r : Member) → member_named (name_text name.now) (parts self.now) ≡ Some r
            → IfSome witness (Disturbs (parts self.now) r)) }
        ensures first { IfOk result (λ witness. (r : Member) → member_named (name_text name.now) (parts self.now) ≡ Some r
            → IsFirstUnquiet (parts self.now) r witness) };

    /// Whether a running router is quiet: it and those that it reaches would make, change and destroy no assignment. So
    /// it is if and only if the assignment subroutine, run once more on each of them with a due backoff for each pair
    /// without an assignment and with random words of zero, comes to a result that makes, changes and destroys no
    /// assignment (RFC 7695, section 4.1). It also is if and only if each result, whatever the random words are, leaves all
    /// assignments as they are. Where a router is not quiet, the subroutine comes to a result on a router of its set, over
    /// each stream of random words, and each result makes, changes or destroys an assignment. A router that is settled and
    /// quiet is sound.
    ///
    /// # Errors
    ///
    /// Out of memory.
    fn quiet(&self, alloc: Global, name: &Name) -> Result<bool, NoMemory>
        requires { IsTrue (runs (name_text name.now) (parts self.now)) }
        ensures quiet { IfOk result (λ answer. (r : Member) → member_named (name_text name.now) (parts self.now) ≡ Some r
            → IsTrue answer ↔ IsQuietByRules (parts self.now) r) }
        ensures unchanged { IfOk result (λ answer. (r : Member) → member_named (name_text name.now) (parts self.now) ≡ Some r
            → IsTrue answer ↔ ChangesNothing (parts self.now) r) }
        ensures acts { IfOk result (λ answer. (r : Member) → member_named (name_text name.now) (parts self.now) ≡ Some r
            → (answer ≡ false) ↔ SomeActs (parts self.now) r) }
        ensures fixed { IfOk result (λ answer. (r : Member) → member_named (name_text name.now) (parts self.now) ≡ Some r
            → IsTrue answer ↔ IsFixed (parts self.now) r) }
        ensures any_words { IfOk result (λ answer. (r : Member) → member_named (name_text name.now) (parts self.now) ≡ Some r
            → MayChangeNothing (parts self.now) r → IsTrue answer) }
        ensures sound { IfOk result (λ answer. (r : Member) → member_named (name_text name.now) (parts self.now) ≡ Some r
            → IsTrue answer → IsSettledByRules (parts self.now) r → IsSoundByRules (parts self.now) r) };
}

/// The first witness by which a router is not settled, if it is not.
fn first_unsettled(alloc: Global, world: &World, r: &Member) -> Result<Option<Unsettled>, NoMemory>
    ensures { IfOk result (IsFirstUnsettled world.now.parts r.now) }
{
    let reach = r.router.reach();
    if let Some(found) = first_unknown(world, reach) {
        return Ok(Some(found));
    }
    let set = set_of(alloc, world, reach)?;
    let unlike = first_unlike(alloc, set.as_slice(), reach)?;
    if let Some(found) = unlike {
        return Ok(Some(found));
    }
    let spots = spots_of(alloc, set.as_slice())?;
    Ok(first_on_links(world, reach, set.as_slice(), spots.as_slice()))
}

/// The first witness by which a router is not quiet, if it is not.
fn first_unquiet(alloc: Global, world: &World, r: &Member) -> Result<Option<Unquiet>, NoMemory>
    ensures { IfOk result (IsFirstUnquiet world.now.parts r.now) }
{
    let set = set_of(alloc, world, r.router.reach())?;
    first_acting(alloc, set.as_slice())
}

impl Audit for World {
    ghost parts = { λ w. w.parts };

    fn reached(&self, alloc: Global, name: &Name) -> Result<Vec<Name>, NoMemory> {
        let Some(r) = self.member(name) else {
            unreachable!()
        };
        let set = set_of(alloc, self, r.router.reach())?;
        names_of(alloc, set.as_slice())
    }

    fn unsettled(&self, alloc: Global, name: &Name) -> Result<Option<Unsettled>, NoMemory> {
        let Some(r) = self.member(name) else {
            unreachable!()
        };
        let found = first_unsettled(alloc, self, r)?;
        Ok(found)
    }

    fn settled(&self, alloc: Global, name: &Name) -> Result<bool, NoMemory> {
        Ok(self.unsettled(alloc, name)?.is_none())
    }

    fn unquiet(&self, alloc: Global, name: &Name) -> Result<Option<Unquiet>, NoMemory> {
        witness_refutes();
        let Some(r) = self.member(name) else {
            unreachable!()
        };
        let found = first_unquiet(alloc, self, r)?;
        Ok(found)
    }

    fn quiet(&self, alloc: Global, name: &Name) -> Result<bool, NoMemory> {
        always_sound();
        rest_is_the_fixed_point();
        settled_and_quiet_is_sound();
        witness_refutes();
        self.is_replayed();
        Ok(self.unquiet(alloc, name)?.is_none())
    }
}
