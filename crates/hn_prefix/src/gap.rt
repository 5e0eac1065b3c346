//! Texts in two parts, at their first `::`.

ghost use Rattle.std.specs.Prelude.{IfSome, IfNone};
ghost use Rattle.hn_prefix.specs.Gap.{HasNoGap, SplitsAtGap};

/// What stands before the first `::`, and what stands after it. `None` if and only if the text has none.
pub fn split_at_gap(text: &[u8]) -> Option<(&[u8], &[u8])>
    ensures found { IfSome result (λ parts. SplitsAtGap text.now parts.0.now parts.1.now) }
    ensures none { IfNone result (HasNoGap text.now) }
{
    for i in 1..text.len() {
        if text[i - 1] == b':' && text[i] == b':' {
            return Some((&text[..i - 1], &text[i + 1..]));
        }
    }
    None
}
