//! What is told of an event that happened.

ghost use Rattle.std.specs.Prelude.{◌≡◌, ◌++◌, ◌%◌, ◌^◌, ◌∷◌, [], OnOk, Some, codes, drop, min, length, string_bytes};
ghost use Rattle.std.specs.Fmt.{decimal};
ghost use Rattle.std.specs.List.{flat_map};
ghost use Rattle.hn_base.specs.declared.name.Name.{Name};
ghost use Rattle.hn_world.specs.declared.copies.MailCopy.{MailCopy};
ghost use Rattle.hn_world.specs.Refusal.{copy_at};
ghost use Rattle.hn_look.specs.Events.{event_text};
ghost use Rattle.hn_look.specs.Steps.{sender_place, actor, copy_line, copy_lines, noted_line, published_line, told_lines, step_text};

use crate::event_text::{push_event, way_word};
use hn_base::{Addr, EpId, Hex, Name};
use hn_lab::note_line;
use hn_rules::{Note, Publication};
use hn_world::{WEvent, World};
use std::alloc::{AllocError, Global};
use std::fmt;

/// How many copies were made, and how much was published, before an event.
#[derive(Clone, Copy)]
pub(crate) struct Made {
    pub copies: u64,
    pub published: usize,
}

impl Made {
    /// What was made so far in a world. Never allocates.
    pub(crate) fn of(world: &World) -> Made
        ensures copies { result.copies ≡ length world.now.parts.copies }
        ensures published { result.published ≡ length world.now.parts.published }
    {
        Made {
            copies: world.copies(),
            published: world.publications().len(),
        }
    }
}

/// The place of the router that sent a copy from this address, in order of definition from 0. Never allocates.
pub fn sender_place(from: Addr) -> usize
    ensures { result ≡ sender_place from }
{
    let ordinal = (from.ip >> 32) % (1 << 32);
    ordinal.saturating_sub(1) as usize
}

/// The router at which an event happened, in the world after it. Never allocates.
fn actor(event: &WEvent, world: &World) -> Option<Name>
    ensures { result ≡ actor event.now world.now.parts }
{
    match event {
        WEvent::Deliver { copy } => world.copy_info(*copy).map(|info| info.to),
        WEvent::Router { name, .. } => Some(*name),
        _ => event.named(),
    }
}

/// An endpoint of the router of a name, if there is one.
#[derive(Clone, Copy)]
struct Place {
    name: Option<Name>,
    endpoint: u128,
}

/// The name, `-` where there is none, and the endpoint.
impl fmt::Display for Place {
    ghost use Rattle.std.specs.Prelude.{Some};
    ghost use Rattle.hn_look.specs.Steps.{endpoint_text};

    ghost output = { λ place. Some (endpoint_text place.name place.endpoint) };

    fn fmt<W: fmt::Write>(&self, f: &mut fmt::Formatter<W>) -> fmt::Result {
        let endpoint = self.endpoint;
        match self.name {
            Some(name) => write!(f, "{name}:{endpoint}"),
            None => write!(f, "-:{endpoint}"),
        }
    }
}

/// Adds the line of the copy of this number.
fn push_copy(text: &mut String, world: &World, number: u64) -> Result<(), AllocError>
    ensures { OnOk result ((c : MailCopy) → copy_at world.now.parts number ≡ Some c
        → string_bytes text.new ≡ string_bytes text.old ++ copy_line world.now.parts number c) }
{
    let (Some(info), Some(bytes)) = (world.copy_info(number), world.copy_bytes(number)) else {
        return Ok(());
    };
    let from = Place {
        name: world.router_at(sender_place(info.from)),
        endpoint: info.from.ip % (1 << 32),
    };
    let to = Place {
        name: Some(info.to),
        endpoint: u128::from(info.endpoint.0),
    };
    let way = way_word(info.multicast);
    let bytes = Hex(bytes);
    write!(text, "  copy {number} {from} > {to} {way} {bytes}\n")
}

/// Adds a line for each copy after the first so many.
fn push_copies(text: &mut String, world: &World, first: u64) -> Result<(), AllocError>
    ensures { OnOk result (string_bytes text.new ≡ string_bytes text.old ++ copy_lines world.now.parts first (drop first world.now.parts.copies)) }
{
    let count = world.copies();
    let mut made = first;
    while made < count {
        made += 1;
        push_copy(text, world, made)?;
    }
    Ok(())
}

/// Adds a line for each note of the router of a name.
fn push_notes(
    alloc: Global,
    text: &mut String,
    name: &Name,
    notes: &[Note],
) -> Result<(), AllocError>
    ensures { OnOk result (string_bytes text.new ≡ string_bytes text.old ++ flat_map (noted_line name.now) notes.now) }
{
    for note in notes {
        let line = note_line(alloc, name, note)?;
        write!(text, "  {line}")?;
    }
    Ok(())
}

/// Adds a line for each publication of the router of a name.
fn push_published(
    text: &mut String,
    name: &Name,
    published: &[Publication],
) -> Result<(), AllocError>
    ensures { OnOk result (string_bytes text.new ≡ string_bytes text.old ++ flat_map (published_line name.now) published.now) }
{
    for one in published {
        let number = one.number;
        write!(text, "  publish {name} number={number}\n")?;
    }
    Ok(())
}

/// Adds what the router of a name, if there is one, noted and published.
fn push_told(
    alloc: Global,
    text: &mut String,
    name: Option<Name>,
    notes: &[Note],
    published: &[Publication],
) -> Result<(), AllocError>
    ensures { OnOk result (string_bytes text.new ≡ string_bytes text.old ++ told_lines name notes.now published.now) }
{
    let Some(name) = name else {
        return Ok(());
    };
    push_notes(alloc, text, &name, notes)?;
    push_published(text, &name, published)
}

/// Adds what is told of an event: the moment after it and the event, and below it the copies that it made, what routers
/// noted, and what was published.
pub(crate) fn push_step(
    alloc: Global,
    text: &mut String,
    event: &WEvent,
    notes: &[Note],
    before: Made,
    world: &World,
) -> Result<(), AllocError>
    ensures { OnOk result (string_bytes text.new ≡ string_bytes text.old ++ step_text event.now notes.now before.copies before.published world.now.parts) }
{
    let moment = world.moment();
    write!(text, "{moment} ")?;
    push_event(text, event)?;
    write!(text, "\n")?;
    push_copies(text, world, before.copies)?;
    let published = world.publications();
    let fresh = &published[before.published.min(published.len())..];
    push_told(alloc, text, actor(event, world), notes, fresh)
}
