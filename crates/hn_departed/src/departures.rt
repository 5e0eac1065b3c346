ghost use Rattle.std.specs.Prelude.{◌≡◌, ◌++◌, [], true, false, nat_lt, length, take, drop, map, IfOk, OnErr};
ghost use Rattle.hn_departed.specs.Departed.{until_of, left_of, told_of, deprecated, is_prefix_among, departs, departed, queue, with_departed, told_after, told_at, told_beside, with_told, told_but, with_earlier};

use crate::keeping::keep_few;
use hn_advert::{Info, Infos};
use hn_base::{EpId, Moment, NoMemory, Sequence};
use hn_prefix::Prefix;
use std::alloc::Global;
use std::marker::Model;

/// A lifetime in seconds that never ends (RFC 4861, section 4.6.2).
const NEVER_ENDS: u32 = 4_294_967_295;

/// The moment at which such a lifetime ends.
const NEVER: u64 = 18_446_744_073_709_551_615;

/// How long a departed prefix is told, in seconds: a host that hears of it keeps it for no longer (RFC 4862, section 5.5.3
/// e).
const LONGEST: u32 = 7200;

/// A prefix that was advertised.
#[derive(Clone, Copy, PartialEq, Eq)]
pub struct Told {
    pub prefix: Prefix,
    /// When its valid lifetime ends, in milliseconds; 2^64 - 1 where it never does. A departed prefix ends after 7,200 s.
    pub until: u64,
    /// When it departed: at the moment of the first advertisement without it.
    pub departed: Option<Moment>,
}

/// How many prefixes that were told in an earlier life an endpoint takes.
const MOST_EARLIER: usize = 64;

impl Told {
    /// What is left of its valid lifetime, in whole seconds, rounded down; 2^32 - 1 where it never ends. Never allocates.
    pub fn left(&self, now: Moment) -> u32
        ensures { result ≡ left_of now self.now.until }
    {
        left_of(now, self.until)
    }
}

/// When a lifetime ends that begins now, in seconds.
fn until_of(now: Moment, valid: u32) -> u64
    ensures { result ≡ until_of now valid }
{
    if valid == NEVER_ENDS {
        NEVER
    } else {
        now.saturating_add(1000 * u64::from(valid))
    }
}

/// What is left of a lifetime, in whole seconds, rounded down.
fn left_of(now: Moment, until: u64) -> u32
    ensures { result ≡ left_of now until }
{
    if until == NEVER {
        return NEVER_ENDS;
    }
    (until.saturating_sub(now) / 1000).min(4_294_967_294) as u32
}

/// What is told of a prefix that is advertised now.
fn told_of(now: Moment, info: &Info) -> Told
    ensures { result ≡ told_of now info.now }
{
    Told {
        prefix: info.prefix,
        until: until_of(now, info.valid),
        departed: None,
    }
}

/// A prefix that is told, and is not to be preferred.
fn deprecated(now: Moment, told: &Told) -> Info
    ensures { result ≡ deprecated now told.now }
{
    Info {
        prefix: told.prefix,
        valid: left_of(now, told.until),
        preferred: 0,
    }
}

/// Whether a prefix is among those.
fn is_among(prefix: Prefix, infos: &[Info]) -> bool
    ensures { result ≡ is_prefix_among prefix infos.now }
{
    infos.iter().any(|info| info.prefix == prefix)
}

/// What is gone has departed, now if it has not before.
fn departs(now: Moment, told: &Told) -> Told
    ensures { result ≡ departs now told.now }
{
    match told.departed {
        Some(_) => *told,
        None => Told {
            prefix: told.prefix,
            until: told.until.min(until_of(now, LONGEST)),
            departed: Some(now),
        },
    }
}

/// Those that were told, whose valid lifetime has not ended, and that are not among those.
fn departed(
    alloc: Global,
    now: Moment,
    infos: &[Info],
    told: &[Told],
) -> Result<Vec<Told>, NoMemory>
    ensures { IfOk result (λ gone. gone.items ≡ departed now infos.now told.now) }
{
    Ok(
        told.iter()
            .filter(|told| now < told.until && !is_among(told.prefix, infos))
            .map(|told| departs(now, told))
            .collect(alloc)?,
    )
}

/// The departed ones that are kept, in the order in which they are told.
fn queue(alloc: Global, now: Moment, infos: &[Info], told: &[Told]) -> Result<Vec<Told>, NoMemory>
    ensures { IfOk result (λ few. few.items ≡ queue now infos.now told.now) }
{
    let mut queue = departed(alloc, now, infos, told)?;
    keep_few(&mut queue);
    Ok(queue)
}

/// The ones that are gone, which are not to be preferred.
fn deprecated_of(alloc: Global, now: Moment, gone: &[Told]) -> Result<Vec<Info>, NoMemory>
    ensures { IfOk result (λ infos. infos.items ≡ map (deprecated now) gone.now) }
{
    Ok(
        gone.iter()
            .map(|told| deprecated(now, told))
            .collect(alloc)?,
    )
}

/// Those, and after them the ones that are gone, which are not to be preferred.
fn all_of(alloc: Global, now: Moment, infos: &[Info], gone: &[Told]) -> Result<Vec<Info>, NoMemory>
    ensures { IfOk result (λ all. all.items ≡ infos.now ++ map (deprecated now) gone.now) }
{
    let mut after = deprecated_of(alloc, now, gone)?;
    let mut all = Vec::from_slice(alloc, infos)?;
    all.append(&mut after)?;
    Ok(all)
}

/// What is told of those.
fn told_of_all(alloc: Global, now: Moment, infos: &[Info]) -> Result<Vec<Told>, NoMemory>
    ensures { IfOk result (λ told. told.items ≡ map (told_of now) infos.now) }
{
    Ok(infos.iter().map(|info| told_of(now, info)).collect(alloc)?)
}

/// What is told of those, and after it what is told of the departed ones. The first ones of these were told, and have their
/// next turn after the others.
fn told_with(
    alloc: Global,
    now: Moment,
    infos: &[Info],
    first: &[Told],
    others: &[Told],
) -> Result<Vec<Told>, NoMemory>
    ensures { IfOk result (λ told. told.items ≡ map (told_of now) infos.now ++ others.now ++ first.now) }
{
    let mut told = told_of_all(alloc, now, infos)?;
    told.extend_from_slice(others)?;
    told.extend_from_slice(first)?;
    Ok(told)
}

/// What was told on an endpoint.
fn told_at(alloc: Global, at: EpId, told: &[(EpId, Told)]) -> Result<Vec<Told>, NoMemory>
    ensures { IfOk result (λ here. here.items ≡ told_at at told.now) }
{
    Ok(
        told.iter()
            .filter(|told| told.0 == at)
            .map(|told| told.1)
            .collect(alloc)?,
    )
}

/// What was told on the others, and has not ended.
fn told_beside(
    alloc: Global,
    now: Moment,
    at: EpId,
    told: &[(EpId, Told)],
) -> Result<Vec<(EpId, Told)>, NoMemory>
    ensures { IfOk result (λ beside. beside.items ≡ told_beside now at told.now) }
{
    Ok(
        told.iter()
            .copied()
            .filter(|told| told.0 != at && now < told.1.until)
            .collect(alloc)?,
    )
}

/// What was told on an endpoint, with that endpoint.
fn with_endpoint(alloc: Global, at: EpId, here: &[Told]) -> Result<Vec<(EpId, Told)>, NoMemory>
    ensures { IfOk result (λ told. told.items ≡ map (λ t. (at, t)) here.now) }
{
    Ok(here.iter().map(|told| (at, *told)).collect(alloc)?)
}

/// What was told on all, where this is what was told on an endpoint now.
fn with_told(
    alloc: Global,
    now: Moment,
    at: EpId,
    here: &[Told],
    told: &[(EpId, Told)],
) -> Result<Vec<(EpId, Told)>, NoMemory>
    ensures { IfOk result (λ all. all.items ≡ with_told now at here.now told.now) }
{
    let mut after = with_endpoint(alloc, at, here)?;
    let mut all = told_beside(alloc, now, at, told)?;
    all.append(&mut after)?;
    Ok(all)
}

/// All that was told but a prefix on an endpoint.
fn told_but(
    alloc: Global,
    at: EpId,
    prefix: &Prefix,
    told: &[(EpId, Told)],
) -> Result<Vec<(EpId, Told)>, NoMemory>
    ensures { IfOk result (λ others. others.items ≡ told_but at prefix.now told.now) }
{
    Ok(
        told.iter()
            .copied()
            .filter(|told| !(told.0 == at && told.1.prefix == *prefix))
            .collect(alloc)?,
    )
}

/// What was advertised on endpoints and whose valid lifetime has not ended. Contracts see the list.
#[derive(Drop)]
pub struct Departures {
    told: Vec<(EpId, Told)>,
}

impl Model for Departures {
    ghost use Rattle.std.specs.Prelude.{List};
    ghost use Rattle.hn_base.specs.declared.ids.EpId.{EpId};
    ghost use Rattle.hn_departed.specs.declared.departures.Told.{Told};

    ghost Value = { List (EpId × Told) };

    ghost view = { λ d. d.told.items };
}

impl Departures {
    /// Nothing was advertised. Never allocates.
    pub fn new(alloc: Global) -> Departures
        ensures { result ≡ [] }
    {
        Departures {
            told: Vec::new(alloc),
        }
    }

    /// The prefixes of an advertisement that is sent on an endpoint now, with room for so many departed ones. First come
    /// those that are to be advertised. After them come the first of those that were and are not among them, each with a
    /// preferred lifetime of 0 and what is left of its valid one. And what was advertised once it is sent.
    ///
    /// At most 64 departed prefixes are kept, each for at most 7,200 s; with a 65th the one goes that departed first. Those
    /// that depart now are told first, and after them those that were not told for longest.
    ///
    /// # Errors
    ///
    /// Out of memory.
    pub fn next(
        &self,
        alloc: Global,
        now: Moment,
        at: EpId,
        infos: &[Info],
        room: usize,
    ) -> Result<(Infos, Departures), NoMemory>
        ensures infos { IfOk result (λ next. next.0 ≡ with_departed now infos.now room (told_at at self.now)) }
        ensures told { IfOk result (λ next. next.1 ≡ with_told now at (told_after now infos.now room (told_at at self.now)) self.now) }
    {
        let here = told_at(alloc, at, self.told.as_slice())?;
        let queue = queue(alloc, now, infos, here.as_slice())?;
        let (first, others) = queue.as_slice().split_at(room.min(queue.len()));
        let after = told_with(alloc, now, infos, first, others)?;
        let told = with_told(alloc, now, at, after.as_slice(), self.told.as_slice())?;
        let all = all_of(alloc, now, infos, first)?;
        Ok((Sequence::from(all), Departures { told }))
    }

    /// What was advertised, each with its endpoint. Never allocates.
    pub fn as_slice(&self) -> &[(EpId, Told)]
        ensures { result.now ≡ self.now }
    {
        self.told.as_slice()
    }

    /// A prefix was advertised on an endpoint in an earlier life, and is valid for so many seconds from now on: whether it is
    /// taken. It is where fewer than 64 others were told there. If the next advertisement does not have it, it departs then.
    ///
    /// # Errors
    ///
    /// Out of memory; all is as before then.
    pub fn depart(
        &mut self,
        alloc: Global,
        now: Moment,
        at: EpId,
        prefix: &Prefix,
        valid: u32,
    ) -> Result<bool, NoMemory>
        ensures room { IfOk result (λ taken. taken ≡ nat_lt (length (told_at at (told_but at prefix.now self.old))) 64) }
        ensures taken { IfOk result (λ taken. taken ≡ true → self.new ≡ with_earlier now at prefix.now valid self.old) }
        ensures full { IfOk result (λ taken. taken ≡ false → self.new ≡ self.old) }
        ensures err { OnErr result (self.new ≡ self.old) }
    {
        let mut all = told_but(alloc, at, prefix, self.told.as_slice())?;
        if MOST_EARLIER <= told_at(alloc, at, all.as_slice())?.len() {
            return Ok(false);
        }
        all.push((
            at,
            Told {
                prefix: *prefix,
                until: until_of(now, valid),
                departed: None,
            },
        ))?;
        self.told = all;
        Ok(true)
    }
}
