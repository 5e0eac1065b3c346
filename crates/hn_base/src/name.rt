ghost use Rattle.std.specs.Prelude.{◌≡◌, ◌≤◌, ◌↔◌, IsTrue, IsSome, IfSome};
ghost use Rattle.std.specs.List.{list_all};
ghost use Rattle.hn_base.specs.NameText.{is_name_byte, IsNameText, IsPadded, first_bytes};

use std::fmt;

/// The most bytes of a name.
pub const NAME_CAPACITY: usize = 16;

/// The name of a router or a link: 1 to 16 ASCII letters, digits, `_` and `-`, beginning with a letter.
/// The bytes past `len` are zero, so that equal names have equal fields.
#[derive(Clone, Copy)]
pub struct Name {
    pub len: u8,
    pub bytes: [u8; 16],
    pub ghost fits: { len ≤ 16 },
    pub ghost is_name: { IsNameText (first_bytes len bytes) },
    pub ghost padded: { IsPadded len bytes },
}

fn has_name_bytes(text: &[u8]) -> bool
    ensures { result ≡ list_all is_name_byte text.now }
{
    text.iter().all(|byte| byte.is_ascii_alphanumeric() || *byte == b'_' || *byte == b'-')
}

fn is_name_text(text: &[u8]) -> bool
    ensures { IsTrue result ↔ IsNameText text.now }
{
    match text {
        [] => false,
        [first, ..] => {
            if text.len() > NAME_CAPACITY || !first.is_ascii_alphabetic() {
                return false;
            }
            has_name_bytes(text)
        }
    }
}

impl Name {
    ghost use Rattle.hn_base.specs.Name.{name_text};

    /// The name of this text, or `None` if and only if the text is of another form. Never allocates.
    pub fn new(text: &[u8]) -> Option<Name>
        ensures found { IsSome result ↔ IsNameText text.now }
        ensures text { IfSome result (λ name. name_text name ≡ text.now) }
    {
        if !is_name_text(text) {
            return None;
        }
        let mut bytes = [0; 16];
        bytes[..text.len()].copy_from_slice(text);
        Some(Name {
            len: text.len() as u8,
            bytes,
        })
    }

    /// The text. Never allocates.
    pub fn as_str(&self) -> &str
        ensures { result.now ≡ name_text self.now }
    {
        match str::from_utf8(&self.bytes[..usize::from(self.len)]) {
            Ok(text) => text,
            Err(_) => unreachable!(),
        }
    }
}

impl fmt::Display for Name {
    ghost use Rattle.std.specs.Prelude.{Some};
    ghost use Rattle.hn_base.specs.Name.{name_text};

    ghost output = { λ name. Some (name_text name) };

    fn fmt<W: fmt::Write>(&self, f: &mut fmt::Formatter<W>) -> fmt::Result {
        f.write_str(self.as_str())
    }
}
