//! So many words and no more.

ghost use Rattle.std.specs.Prelude.{◌≡◌, ◌≢◌, [], ◌∷◌, length, IfSome, IfNone};
ghost use Rattle.hn_script.specs.Texts.{words_of};

use crate::texts::next_word;

/// The one word of this text; `None` if and only if it has another count of words.
pub(crate) fn one_word(text: &[u8]) -> Option<&[u8]>
    ensures found { IfSome result (λ word. words_of text.now ≡ word.now ∷ []) }
    ensures none { IfNone result (length (words_of text.now) ≢ 1) }
{
    let (word, rest) = next_word(text)?;
    if next_word(rest).is_some() {
        return None;
    }
    Some(word)
}

/// The two words of this text; `None` if and only if it has another count of words.
pub(crate) fn two_words(text: &[u8]) -> Option<(&[u8], &[u8])>
    ensures found { IfSome result (λ words. words_of text.now ≡ words.0.now ∷ words.1.now ∷ []) }
    ensures none { IfNone result (length (words_of text.now) ≢ 2) }
{
    let (word, rest) = next_word(text)?;
    Some((word, one_word(rest)?))
}

/// The three words of this text; `None` if and only if it has another count of words.
pub(crate) fn three_words(text: &[u8]) -> Option<(&[u8], &[u8], &[u8])>
    ensures found { IfSome result (λ words. words_of text.now ≡ words.0.now ∷ words.1.now ∷ words.2.now ∷ []) }
    ensures none { IfNone result (length (words_of text.now) ≢ 3) }
{
    let (word, rest) = next_word(text)?;
    let (second, third) = two_words(rest)?;
    Some((word, second, third))
}

/// The four words of this text; `None` if and only if it has another count of words.
pub(crate) fn four_words(text: &[u8]) -> Option<(&[u8], &[u8], &[u8], &[u8])>
    ensures found { IfSome result
        (λ words. words_of text.now ≡ words.0.now ∷ words.1.now ∷ words.2.now ∷ words.3.now ∷ []) }
    ensures none { IfNone result (length (words_of text.now) ≢ 4) }
{
    let (word, rest) = next_word(text)?;
    let (second, third, fourth) = three_words(rest)?;
    Some((word, second, third, fourth))
}

/// The first word of this text, and the four words after it as `four_words` answers them; `None` if and only if the text
/// has another count of words.
pub(crate) fn five_words(text: &[u8]) -> Option<(&[u8], (&[u8], &[u8], &[u8], &[u8]))>
    ensures found { IfSome result (λ words.
        words_of text.now ≡ words.0.now ∷ words.1.0.now ∷ words.1.1.now ∷ words.1.2.now ∷ words.1.3.now ∷ []) }
    ensures none { IfNone result (length (words_of text.now) ≢ 5) }
{
    let (word, rest) = next_word(text)?;
    Some((word, four_words(rest)?))
}
