//! The versions of scripts: the first line tells which it is, and some words are not of all.

ghost use Rattle.std.specs.Prelude.{◌≡◌, ◌≢◌, MatchBool, IfSome, IfNone};
ghost use Rattle.hn_base.specs.declared.version.Version.{Version};
ghost use Rattle.hn_script.specs.Fault.{IsUnknown};
ghost use Rattle.hn_script.specs.FirstWords.{IsOneOf, IsNoneOf, later_firsts};
ghost use Rattle.hn_script.specs.Line.{of_version};
ghost use Rattle.hn_script.specs.Reading.{AreOfVersion};
ghost use Rattle.hn_script.specs.Script.{first_line};

use hn_base::Version;

/// The first line of the scripts of a version, without its LF. Never allocates.
pub(crate) fn first_line(version: Version) -> &'static [u8]
    ensures { result.now ≡ first_line version }
{
    match version {
        Version::One => b"hncp 1",
        Version::Two => b"hncp 2",
    }
}

/// The version of the scripts that begin with this line; `None` if and only if none does.
pub(crate) fn version_of(text: &[u8]) -> Option<Version>
    ensures found { IfSome result (λ version. text.now ≡ first_line version) }
    ensures none { IfNone result ((version : Version) → text.now ≢ first_line version) }
{
    if text == first_line(Version::One) {
        return Some(Version::One);
    }
    (text == first_line(Version::Two)).then_some(Version::Two)
}

/// Whether this is a first word of version 2 alone.
fn is_later(word: &str) -> bool
    ensures { MatchBool result (IsOneOf later_firsts word.now) (IsNoneOf later_firsts word.now) }
{
    matches!(
        word,
        "private"
            | "address"
            | "addresses"
            | "addressed"
            | "ula"
            | "ulas"
            | "sync"
            | "radv"
            | "solicit"
    )
}

/// Whether the lines that begin with this word are of this version; else none of them is. Never allocates.
pub(crate) fn is_of_version(version: Version, word: &str) -> bool
    ensures { MatchBool result (AreOfVersion version word.now) (IsUnknown (of_version version) word.now) }
{
    match version {
        Version::One => !is_later(word),
        Version::Two => true,
    }
}
