//! The reading of a line.

ghost use Rattle.std.specs.Prelude.{◌≡◌, ◌≢◌, ◌<◌, ◌≤◌, ◌∷◌, ◌++◌, length, codes, Option, MatchResult, IfSome, IfNone};
ghost use Rattle.hn_script.specs.Fault.{IsPlain, TextFault, LineFault};
ghost use Rattle.hn_script.specs.Entries.{IsEntry};
ghost use Rattle.hn_script.specs.FirstWords.{IsOneOf, IsNoneOf, shared_firsts, name_firsts, endpoint_firsts, number_firsts, pair_firsts, lone_firsts, router_firsts, prefix_firsts};
ghost use Rattle.hn_script.specs.Line.{every_line, of_version};
ghost use Rattle.hn_script.specs.Reading.{ReadsLine, ReadsDraft, ReadsText};
ghost use Rattle.hn_script.specs.Texts.{words_of};
ghost use Rattle.hn_script.specs.declared.line.Line.{Line as ALine};

use crate::code::{COUNT, FOREIGN, LONG, UNKNOWN};
use crate::draft::Draft;
use crate::fields::{digits, endpoint, name, way};
use crate::line::Line;
use crate::shapes::{
    any_number, attachment, candidacy, delegation, moment, moment_and_span, name_and_caps,
    name_and_endpoint, name_and_length, name_and_node, name_and_prefix, nothing, one_name,
    one_number, two_names,
};
use crate::texts::next_word;
use crate::version::is_of_version;
use crate::words::four_words;
use hn_base::Version;

/// The most bytes of a line, its LF not counted.
const MOST_BYTES: usize = 16_384;

/// The line of a first word that has a name after it, and the words in `rest`.
fn read_named(word: &str, rest: &[u8]) -> Result<Line, u8>
    requires { IsOneOf name_firsts word.now }
    ensures { ReadsLine every_line word.now (words_of rest.now) result }
{
    let name = one_name(rest)?;
    match word {
        "link" => Ok(Line::Link(name)),
        "stop" => Ok(Line::Stop(name)),
        "start" => Ok(Line::Start(name)),
        "tick" => Ok(Line::Tick(name)),
        "show" => Ok(Line::Show(name)),
        "hash" => Ok(Line::Hash(name)),
        "used" => Ok(Line::Used(name)),
        "prefixes" => Ok(Line::Prefixes(name)),
        "audit" => Ok(Line::Audit(name)),
        "address" => Ok(Line::Address(name)),
        "addresses" => Ok(Line::Addresses(name)),
        "addressed" => Ok(Line::Addressed(name)),
        "ula" => Ok(Line::Ula(name)),
        _ => Ok(Line::Ulas(name)),
    }
}

/// The line of a first word that has a name and an endpoint after it, and the words in `rest`.
fn read_endpoint(word: &str, rest: &[u8]) -> Result<Line, u8>
    requires { IsOneOf endpoint_firsts word.now }
    ensures { ReadsLine every_line word.now (words_of rest.now) result }
{
    let (name, endpoint) = name_and_endpoint(rest)?;
    match word {
        "detach" => Ok(Line::Detach(name, endpoint)),
        "advert" => Ok(Line::Advert(name, endpoint)),
        "radv" => Ok(Line::Radv(name, endpoint)),
        _ => Ok(Line::Solicit(name, endpoint)),
    }
}

/// The line of a first word that has a number after it, and the words in `rest`.
fn read_number(word: &str, rest: &[u8]) -> Result<Line, u8>
    requires { IsOneOf number_firsts word.now }
    ensures { ReadsLine every_line word.now (words_of rest.now) result }
{
    let number = any_number(rest)?;
    match word {
        "seed" => Ok(Line::Seed(number)),
        "deliver" => Ok(Line::Deliver(number)),
        _ => Ok(Line::Drop(number)),
    }
}

/// The line of a first word that has two names after it, and the words in `rest`.
fn read_pair(word: &str, rest: &[u8]) -> Result<Line, u8>
    requires { IsOneOf pair_firsts word.now }
    ensures { ReadsLine every_line word.now (words_of rest.now) result }
{
    let (left, right) = two_names(rest)?;
    match word {
        "compare" => Ok(Line::Compare(left, right)),
        _ => Ok(Line::Sync(left, right)),
    }
}

/// The line of a first word that has nothing after it, and the words in `rest`.
fn read_lone(word: &str, rest: &[u8]) -> Result<Line, u8>
    requires { IsOneOf lone_firsts word.now }
    ensures { ReadsLine every_line word.now (words_of rest.now) result }
{
    nothing(rest)?;
    match word {
        "flow" => Ok(Line::Flow),
        _ => Ok(Line::Mail),
    }
}

/// The line of a first word that no other line shares its values with, unless the word is `inject`.
fn read_sole(word: &str, rest: &[u8]) -> Result<Line, u8>
    requires { IsNoneOf (codes "inject" ∷ shared_firsts) word.now }
    ensures { ReadsLine every_line word.now (words_of rest.now) result }
{
    match word {
        "router" => {
            let (name, id) = name_and_node(rest)?;
            Ok(Line::Router(name, id))
        }
        "attach" => {
            let (name, endpoint, link) = attachment(rest)?;
            Ok(Line::Attach(name, endpoint, link))
        }
        "caps" => {
            let (name, caps) = name_and_caps(rest)?;
            Ok(Line::Caps(name, caps))
        }
        "elect" => {
            let (name, endpoint, letter) = candidacy(rest)?;
            Ok(Line::Elect(name, endpoint, letter))
        }
        _ => read_prefixed(word, rest),
    }
}

/// The same, where the word is none of those either: with a prefix or the length of one after it, or with numbers.
fn read_prefixed(word: &str, rest: &[u8]) -> Result<Line, u8>
    requires { IsNoneOf (router_firsts ++ shared_firsts) word.now }
    ensures { ReadsLine every_line word.now (words_of rest.now) result }
{
    match word {
        "external" => {
            let (name, prefix, valid, preferred) = delegation(rest)?;
            Ok(Line::External(name, prefix, valid, preferred))
        }
        "withdraw" => {
            let (name, prefix) = name_and_prefix(rest)?;
            Ok(Line::Withdraw(name, prefix))
        }
        "private" => {
            let (name, length) = name_and_length(rest)?;
            Ok(Line::Private(name, length))
        }
        _ => read_ranged(word, rest),
    }
}

/// The same, where the word is none of those either: with numbers in a range after it.
fn read_ranged(word: &str, rest: &[u8]) -> Result<Line, u8>
    requires { IsNoneOf (prefix_firsts ++ router_firsts ++ shared_firsts) word.now }
    ensures { ReadsLine every_line word.now (words_of rest.now) result }
{
    match word {
        "loss" => Ok(Line::Loss(one_number(rest, 0, 100)? as u8)),
        "time" => Ok(Line::Time(moment(rest)?)),
        "run" => {
            let (end, step) = moment_and_span(rest)?;
            Ok(Line::Run(end, step))
        }
        _ => Err(UNKNOWN),
    }
}

/// The line of a first word that has no name alone after it, and the words in `rest`, unless the word is `inject`.
fn read_unnamed(word: &str, rest: &[u8]) -> Result<Line, u8>
    requires { IsNoneOf (codes "inject" ∷ name_firsts) word.now }
    ensures { ReadsLine every_line word.now (words_of rest.now) result }
{
    match word {
        "detach" | "advert" | "radv" | "solicit" => read_endpoint(word, rest),
        "seed" | "deliver" | "drop" => read_number(word, rest),
        "compare" | "sync" => read_pair(word, rest),
        "flow" | "mail" => read_lone(word, rest),
        _ => read_sole(word, rest),
    }
}

/// The line of this first word and the words in `rest`, unless the word is `inject`.
fn read_other(word: &str, rest: &[u8]) -> Result<Line, u8>
    requires { word.now ≢ codes "inject" }
    ensures { ReadsLine every_line word.now (words_of rest.now) result }
{
    match word {
        "link"
        | "stop"
        | "start"
        | "tick"
        | "show"
        | "hash"
        | "used"
        | "prefixes"
        | "audit"
        | "address"
        | "addresses"
        | "addressed"
        | "ula"
        | "ulas" => read_named(word, rest),
        _ => read_unnamed(word, rest),
    }
}

/// The draft of the word `inject` and the words in `rest`.
fn read_injected(rest: &[u8]) -> Result<Draft<'_>, u8>
    ensures { ReadsDraft every_line (codes "inject") (words_of rest.now) result }
{
    let Some((first, number, how, bytes)) = four_words(rest) else {
        return Err(COUNT);
    };
    Ok(Draft::Injected(name(first)?, endpoint(number)?, way(how)?, digits(bytes)?))
}

/// The draft of this first word and the words in `rest`, whatever the version.
fn read_known<'a>(word: &str, rest: &'a [u8]) -> Result<Draft<'a>, u8>
    ensures { ReadsDraft every_line word.now (words_of rest.now) result }
{
    if word == "inject" {
        return read_injected(rest);
    }
    Ok(Draft::Whole(read_other(word, rest)?))
}

/// The draft of this first word and the words in `rest`, in a script of this version.
fn read_draft<'a>(version: Version, word: &[u8], rest: &'a [u8]) -> Result<Draft<'a>, u8>
    ensures { ReadsDraft (of_version version) word.now (words_of rest.now) result }
{
    let Ok(word) = str::from_utf8(word) else {
        return Err(UNKNOWN);
    };
    if is_of_version(version, word) {
        return read_known(word, rest);
    }
    Err(UNKNOWN)
}

/// Nothing, unless the line is too long or has a byte that no line may have.
pub(crate) fn check_text(text: &[u8]) -> Result<(), u8>
    ensures { MatchResult result (λ _. (length text.now ≤ MOST_BYTES) × IsPlain text.now)
        (λ code. TextFault text.now (λ _. ⊥) code) }
{
    if text.len() > MOST_BYTES {
        return Err(LONG);
    }
    for byte in text {
        if *byte < 0x20 || *byte > 0x7e {
            return Err(FOREIGN);
        }
    }
    Ok(())
}

/// What the text of a line of this version gives: a draft, or nothing if the line is skipped.
pub(crate) fn read_text(version: Version, text: &[u8]) -> Result<Option<Draft<'_>>, u8>
    ensures { ReadsText version text.now result }
{
    check_text(text)?;
    let Some((word, rest)) = next_word(text) else {
        return Ok(None);
    };
    if word[0] == b'#' {
        return Ok(None);
    }
    let draft = read_draft(version, word, rest)?;
    Ok(Some(draft))
}

/// What is wrong with the text of a line of this version, after the first; `None` if nothing is.
pub(crate) fn line_fault(version: Version, text: &[u8]) -> Option<u8>
    ensures found { IfSome result (λ code. LineFault (of_version version) text.now code) }
    ensures none { IfNone result ((entry : Option ALine) × IsEntry (of_version version) entry text.now) }
{
    match read_text(version, text) {
        Ok(_) => None,
        Err(code) => Some(code),
    }
}
