//! What follows the first word of a line, for each shape of lines.

ghost use Rattle.std.specs.Prelude.{◌≡◌, ◌-◌, ◌^◌, [], ◌∷◌};
ghost use Rattle.hn_script.specs.Field.{Named, Node, Endpoint, Number, Prefixed, Capability, Length};
ghost use Rattle.hn_script.specs.Line.{priority as priority_field, time_from, lifetime as lifetime_field};
ghost use Rattle.hn_script.specs.Reading.{ReadsFields};
ghost use Rattle.hn_script.specs.Texts.{words_of};

use crate::code::COUNT;
use crate::fields::{endpoint, length, letter, lifetime, name, node, number, prefix, priority};
use crate::texts::next_word;
use crate::words::{five_words, four_words, one_word, three_words, two_words};
use hn_base::{Caps, EpId, Letter, LinkLength, Name, NodeId};
use hn_prefix::Prefix;

/// The latest moment, and the longest span, in milliseconds.
const LAST_MOMENT: u64 = 1 << 48;

/// Nothing.
pub(crate) fn nothing(rest: &[u8]) -> Result<(), u8>
    ensures { ReadsFields 0 (λ _. []) (words_of rest.now) result }
{
    if next_word(rest).is_some() {
        return Err(COUNT);
    }
    Ok(())
}

/// A name.
pub(crate) fn one_name(rest: &[u8]) -> Result<Name, u8>
    ensures { ReadsFields 1 (λ name. Named name ∷ []) (words_of rest.now) result }
{
    let Some(word) = one_word(rest) else {
        return Err(COUNT);
    };
    name(word)
}

/// Two names.
pub(crate) fn two_names(rest: &[u8]) -> Result<(Name, Name), u8>
    ensures { ReadsFields 2 (λ names. Named names.0 ∷ Named names.1 ∷ []) (words_of rest.now) result }
{
    let Some((left, right)) = two_words(rest) else {
        return Err(COUNT);
    };
    Ok((name(left)?, name(right)?))
}

/// A name and an identifier.
pub(crate) fn name_and_node(rest: &[u8]) -> Result<(Name, NodeId), u8>
    ensures { ReadsFields 2 (λ found. Named found.0 ∷ Node found.1 ∷ []) (words_of rest.now) result }
{
    let Some((first, id)) = two_words(rest) else {
        return Err(COUNT);
    };
    Ok((name(first)?, node(id)?))
}

/// A name and an endpoint.
pub(crate) fn name_and_endpoint(rest: &[u8]) -> Result<(Name, EpId), u8>
    ensures { ReadsFields 2 (λ found. Named found.0 ∷ Endpoint found.1 ∷ []) (words_of rest.now) result }
{
    let Some((first, number)) = two_words(rest) else {
        return Err(COUNT);
    };
    Ok((name(first)?, endpoint(number)?))
}

/// A name, an endpoint and a name.
pub(crate) fn attachment(rest: &[u8]) -> Result<(Name, EpId, Name), u8>
    ensures { ReadsFields 3 (λ found. Named found.0 ∷ Endpoint found.1 ∷ Named found.2 ∷ [])
        (words_of rest.now) result }
{
    let Some((first, number, link)) = three_words(rest) else {
        return Err(COUNT);
    };
    Ok((name(first)?, endpoint(number)?, name(link)?))
}

/// A name and a prefix.
pub(crate) fn name_and_prefix(rest: &[u8]) -> Result<(Name, Prefix), u8>
    ensures { ReadsFields 2 (λ found. Named found.0 ∷ Prefixed found.1 ∷ []) (words_of rest.now) result }
{
    let Some((first, second)) = two_words(rest) else {
        return Err(COUNT);
    };
    Ok((name(first)?, prefix(second)?))
}

/// A name and the length of the prefixes of a private link.
pub(crate) fn name_and_length(rest: &[u8]) -> Result<(Name, Option<LinkLength>), u8>
    ensures { ReadsFields 2 (λ found. Named found.0 ∷ Length found.1 ∷ []) (words_of rest.now) result }
{
    let Some((first, second)) = two_words(rest) else {
        return Err(COUNT);
    };
    Ok((name(first)?, length(second)?))
}

/// A name, a prefix and two lifetimes, of which the second is not above the first.
pub(crate) fn delegation(rest: &[u8]) -> Result<(Name, Prefix, u32, u32), u8>
    ensures { ReadsFields 4
        (λ found. Named found.0 ∷ Prefixed found.1 ∷ lifetime_field found.2 ∷ Number 0 found.2 found.3 ∷ [])
        (words_of rest.now) result }
{
    let Some((first, second, valid, preferred)) = four_words(rest) else {
        return Err(COUNT);
    };
    let name = name(first)?;
    let prefix = prefix(second)?;
    let valid = lifetime(valid, u32::MAX)?;
    Ok((name, prefix, valid, lifetime(preferred, valid)?))
}

/// A name, an endpoint and a capability.
pub(crate) fn candidacy(rest: &[u8]) -> Result<(Name, EpId, Letter), u8>
    ensures { ReadsFields 3 (λ found. Named found.0 ∷ Endpoint found.1 ∷ Capability found.2 ∷ [])
        (words_of rest.now) result }
{
    let Some((first, number, word)) = three_words(rest) else {
        return Err(COUNT);
    };
    Ok((name(first)?, endpoint(number)?, letter(word)?))
}

/// A name and four priorities.
pub(crate) fn name_and_caps(rest: &[u8]) -> Result<(Name, Caps), u8>
    ensures { ReadsFields 5
        (λ found. Named found.0 ∷ priority_field found.1.m ∷ priority_field found.1.p ∷ priority_field found.1.h
        ∷ priority_field found.1.l ∷ []) (words_of rest.now) result }
{
    let Some((first, (m, p, h, l))) = five_words(rest) else {
        return Err(COUNT);
    };
    let caps = Caps {
        m: priority(m)?,
        p: priority(p)?,
        h: priority(h)?,
        l: priority(l)?,
    };
    Ok((name(first)?, caps))
}

/// A number in this range.
pub(crate) fn one_number(rest: &[u8], lowest: u64, highest: u64) -> Result<u64, u8>
    ensures { ReadsFields 1 (λ n. Number lowest highest n ∷ []) (words_of rest.now) result }
{
    let Some(word) = one_word(rest) else {
        return Err(COUNT);
    };
    number(word, lowest, highest)
}

/// A number of 64 bits.
pub(crate) fn any_number(rest: &[u8]) -> Result<u64, u8>
    ensures { ReadsFields 1 (λ n. Number 0 (2 ^ 64 - 1) n ∷ []) (words_of rest.now) result }
{
    one_number(rest, 0, u64::MAX)
}

/// A moment.
pub(crate) fn moment(rest: &[u8]) -> Result<u64, u8>
    ensures { ReadsFields 1 (λ t. time_from 0 t ∷ []) (words_of rest.now) result }
{
    one_number(rest, 0, LAST_MOMENT)
}

/// A moment and a span of time.
pub(crate) fn moment_and_span(rest: &[u8]) -> Result<(u64, u64), u8>
    ensures { ReadsFields 2 (λ found. time_from 0 found.0 ∷ time_from 1 found.1 ∷ []) (words_of rest.now) result }
{
    let Some((end, step)) = two_words(rest) else {
        return Err(COUNT);
    };
    Ok((number(end, 0, LAST_MOMENT)?, number(step, 1, LAST_MOMENT)?))
}
