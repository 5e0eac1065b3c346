//! The moment of a home, and how many copies of datagrams are under way.

ghost use Rattle.std.specs.Prelude.{◌≡◌, ◌↔◌, IfSome, IfNone, IsTrue, Some, false, suc, length, count_by, unwrap_or};
ghost use Rattle.std.specs.Option.{option_map};
ghost use Rattle.hn_play.specs.declared.end.End.TheVariants as ends;
ghost use Rattle.hn_world.specs.Waiting.{first_waiting};

use crate::handle::Handle;
use std::alloc::Global;

/// Whether lines may be added.
#[unsafe(no_mangle)]
pub extern "C" fn hn_lab_is_open(alloc: Global, lab: &mut Handle) -> bool
    ensures kept { lab.new.held ≡ lab.old.held }
    ensures open { IfSome lab.old.held (λ play. IsTrue result ↔ (play.end ≡ Some ends.Done)) }
    ensures none { IfNone lab.old.held (result ≡ false) }
{
    let Some(play) = lab.take(alloc) else {
        return false;
    };
    let value = play.is_open();
    *lab = Handle::of(play);
    value
}

/// The moment.
#[unsafe(no_mangle)]
pub extern "C" fn hn_lab_moment(alloc: Global, lab: &mut Handle) -> u64
    ensures kept { lab.new.held ≡ lab.old.held }
    ensures value { IfSome lab.old.held (λ play. result ≡ play.world.moment) }
    ensures none { IfNone lab.old.held (result ≡ 0) }
{
    let Some(play) = lab.take(alloc) else {
        return 0;
    };
    let value = play.world().moment();
    *lab = Handle::of(play);
    value
}

/// How many copies were made. They are numbered from 1.
#[unsafe(no_mangle)]
pub extern "C" fn hn_lab_copies(alloc: Global, lab: &mut Handle) -> u64
    ensures kept { lab.new.held ≡ lab.old.held }
    ensures value { IfSome lab.old.held (λ play. result ≡ length play.world.copies) }
    ensures none { IfNone lab.old.held (result ≡ 0) }
{
    let Some(play) = lab.take(alloc) else {
        return 0;
    };
    let value = play.world().copies();
    *lab = Handle::of(play);
    value
}

/// How many copies wait: they were neither delivered nor dropped.
#[unsafe(no_mangle)]
pub extern "C" fn hn_lab_waiting(alloc: Global, lab: &mut Handle) -> u64
    ensures kept { lab.new.held ≡ lab.old.held }
    ensures value { IfSome lab.old.held (λ play. result ≡ count_by (λ c. c.waiting) play.world.copies) }
    ensures none { IfNone lab.old.held (result ≡ 0) }
{
    let Some(play) = lab.take(alloc) else {
        return 0;
    };
    let value = play.world().waiting();
    *lab = Handle::of(play);
    value
}

/// The least number of a copy that waits, or 0 where none waits.
#[unsafe(no_mangle)]
pub extern "C" fn hn_lab_next(alloc: Global, lab: &mut Handle) -> u64
    ensures kept { lab.new.held ≡ lab.old.held }
    ensures value { IfSome lab.old.held (λ play. result ≡ unwrap_or (option_map suc (first_waiting play.world.copies)) 0) }
    ensures none { IfNone lab.old.held (result ≡ 0) }
{
    let Some(play) = lab.take(alloc) else {
        return 0;
    };
    let value = play.world().next_waiting().unwrap_or(0);
    *lab = Handle::of(play);
    value
}
