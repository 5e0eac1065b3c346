//! The reports on a router, on two, and on the mail.

ghost use Rattle.std.specs.Prelude.{◌≡◌, ◌↔◌, None, Some, IfOk, IsTrue, string_bytes};
ghost use Rattle.hn_base.specs.Name.{name_text};
ghost use Rattle.hn_world.specs.declared.member.Member.{Member as AMember};
ghost use Rattle.hn_world.specs.Names.{member_named};
ghost use Rattle.hn_world.specs.Asked.{unless_both_run};
ghost use Rattle.hn_report.specs.RouterReports.{Compares, mail_report, show_line, hash_line, agreement_text, compare_line};

use hn_base::{Hex, Name, NoMemory, yes_no};
use hn_hash::Agreement;
use hn_world::{Member, World};
use std::alloc::{AllocError, Global};

/// The line on a router.
pub fn show_line(alloc: Global, name: &Name, member: &Member) -> Result<String, AllocError>
    ensures { IfOk result (λ line. string_bytes line ≡ show_line name.now member.now) }
{
    let id = member.router.id();
    let number = member.router.number();
    let reach = member.router.reach().len();
    let held = member.router.table().len();
    let running = yes_no(member.running);
    format!(in alloc;
        "show {name} id={id} number={number} reach={reach} held={held} running={running}\n"
    )
}

/// The line on the network state hash of a router.
pub fn hash_line(alloc: Global, name: &Name, member: &Member) -> Result<String, AllocError>
    ensures { IfOk result (λ line. string_bytes line ≡ hash_line name.now member.now) }
{
    let net = member.router.net();
    let hash = Hex(&net);
    format!(in alloc; "hash {name} {hash}\n")
}

/// How two routers agree.
fn agreement_text(
    alloc: Global,
    agreement: &Agreement,
    same_ids: bool,
) -> Result<String, AllocError>
    ensures { IfOk result (λ text. string_bytes text ≡ agreement_text agreement.now same_ids) }
{
    match agreement {
        Agreement::Differ => String::from_str(alloc, "net=differ"),
        Agreement::Same => {
            let ids = if same_ids { "same" } else { "other" };
            format!(in alloc; "net=same ids={ids}")
        }
        Agreement::Collide { left, right } => {
            let left = Hex(left.as_slice());
            let right = Hex(right.as_slice());
            format!(in alloc; "net=collide left={left} right={right}")
        }
    }
}

/// Whether two routers reach the same identifiers.
fn reach_the_same(world: &World, left: &Name, right: &Name) -> bool
    ensures { (a b : AMember) → member_named (name_text left.now) world.now.parts ≡ Some a
        → member_named (name_text right.now) world.now.parts ≡ Some b
        → IsTrue result ↔ (a.router.reach ≡ b.router.reach) }
{
    match (world.router(left), world.router(right)) {
        (Some(a), Some(b)) => a.reach() == b.reach(),
        _ => false,
    }
}

/// The line on two routers.
pub fn compare_line(
    alloc: Global,
    world: &World,
    left: &Name,
    right: &Name,
) -> Result<String, NoMemory>
    requires { unless_both_run left.now right.now world.now.parts ≡ None }
    ensures { IfOk result (λ line. Compares left.now right.now world.now.parts (string_bytes line)) }
{
    let agreement = world.compare(alloc, left, right)?;
    let text = agreement_text(alloc, &agreement, reach_the_same(world, left, right))?;
    Ok(format!(in alloc; "compare {left} {right} {text}\n")?)
}

/// The line on the mail.
pub fn mail_line(alloc: Global, world: &World) -> Result<String, AllocError>
    ensures { IfOk result (λ line. string_bytes line ≡ mail_report world.now.parts) }
{
    let copies = world.copies();
    let waiting = world.waiting();
    format!(in alloc; "mail copies={copies} waiting={waiting}\n")
}
