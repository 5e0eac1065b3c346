//! The lines of a script, and the words of a line.

ghost use Rattle.std.specs.Prelude.{◌≡◌, ◌<◌, [], ◌∷◌, length, IfSome, IfNone};
ghost use Rattle.hn_script.specs.Texts.{words_of, lines_of};

use hn_base::split_once;

/// The first of the lines of these bytes, without its LF, and the bytes after that; `None` if and only if there are no
/// bytes.
pub fn next_line(bytes: &[u8]) -> Option<(&[u8], &[u8])>
    ensures found { IfSome result (λ next. lines_of bytes.now ≡ next.0.now ∷ lines_of next.1.now) }
    ensures shorter { IfSome result (λ next. length next.1.now < length bytes.now) }
    ensures none { IfNone result (lines_of bytes.now ≡ []) }
{
    if bytes.is_empty() {
        return None;
    }
    match split_once(bytes, b'\n') {
        Some(parts) => Some(parts),
        None => Some((bytes, b"")),
    }
}

/// The first word of a line, and what follows it; `None` if the line has no word.
pub(crate) fn next_word(text: &[u8]) -> Option<(&[u8], &[u8])>
    ensures found { IfSome result (λ next. words_of text.now ≡ next.0.now ∷ words_of next.1.now) }
    ensures some { IfSome result (λ next. 0 < length next.0.now) }
    ensures none { IfNone result (words_of text.now ≡ []) }
{
    let mut rest = text;
    while let Some((piece, others)) = split_once(rest, b' ') {
        if !piece.is_empty() {
            return Some((piece, others));
        }
        rest = others;
    }
    if rest.is_empty() {
        return None;
    }
    Some((rest, b""))
}
