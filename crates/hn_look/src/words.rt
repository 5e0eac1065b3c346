ghost use Rattle.std.specs.Prelude.{List, map, IfSome, IfNone, string_bytes};

use hn_base::Name;

/// What the program is asked for.
#[derive(Clone, Copy)]
pub enum Form {
    /// `log`: what happened, event by event.
    Log,
    /// `table NAME`: what the router of that name holds.
    Table(Name),
    /// `why NAME`: whether the router of that name is settled and quiet, and if not, why.
    Why(Name),
    /// `calm NAME`: whether the home of the router of that name is calm, and until when it lasts; and if not, what is
    /// missing.
    Calm(Name),
}

impl Form {
    ghost use Rattle.hn_look.specs.Form.{IsLookFormOf, IsLookWord, AreNamedWords};

    /// The form without a name of this word.
    fn plain(word: &str) -> Option<Form>
        ensures found { IfSome result (λ form. IsLookWord form word.now) }
        ensures none { IfNone result ((form : Form) → IsLookWord form word.now → ⊥) }
    {
        match word {
            "log" => Some(Form::Log),
            _ => None,
        }
    }

    /// The form with a name of these words.
    fn named(word: &str, name: &str) -> Option<Form>
        ensures found { IfSome result (λ form. AreNamedWords form word.now name.now) }
        ensures none { IfNone result ((form : Form) → AreNamedWords form word.now name.now → ⊥) }
    {
        let name = Name::new(name.as_bytes())?;
        match word {
            "table" => Some(Form::Table(name)),
            "why" => Some(Form::Why(name)),
            "calm" => Some(Form::Calm(name)),
            _ => None,
        }
    }

    /// The form that the words of the command line ask for, the program's name among them; `None` if and only if they
    /// are bad usage. Never allocates.
    pub fn of(words: &[String]) -> Option<Form>
        ensures found { IfSome result (λ form. IsLookFormOf form (map string_bytes words.now)) }
        ensures none { IfNone result ((form : Form) → IsLookFormOf form (map string_bytes words.now) → ⊥) }
    {
        match words {
            [_, form] => Form::plain(form.as_str()),
            [_, form, name] => Form::named(form.as_str(), name.as_str()),
            _ => None,
        }
    }
}
