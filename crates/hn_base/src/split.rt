//! Texts in two parts.

ghost use Rattle.std.specs.Prelude.{IfSome, IfNone};
ghost use Rattle.hn_base.specs.Splits.{Lacks, SplitsAt};

/// What stands before the first such byte, and what stands after it. `None` if and only if the text lacks the byte.
/// Never allocates.
pub fn split_once(text: &[u8], byte: u8) -> Option<(&[u8], &[u8])>
    ensures found { IfSome result (λ parts. SplitsAt byte text.now parts.0.now parts.1.now) }
    ensures none { IfNone result (Lacks byte text.now) }
{
    for (i, b) in text.iter().enumerate() {
        if *b == byte {
            return Some((&text[..i], &text[i + 1..]));
        }
    }
    None
}
