ghost use Rattle.std.specs.Prelude.{◌≡◌, [], ◌∷◌, ◌++◌, IfOk, OnOk, map, string_bytes};

use hn_base::NoMemory;
use std::alloc::Global;
use std::marker::Model;

/// Lines of text, each with its LF.
#[derive(Drop)]
pub struct Lines {
    items: Vec<String>,
}

impl Model for Lines {
    ghost use Rattle.std.specs.Prelude.{ℕ, List, map, string_bytes};

    ghost Value = { List (List ℕ) };

    ghost view = { λ l. map string_bytes l.items.items };
}

impl Lines {
    /// No lines. Never allocates.
    pub fn new(alloc: Global) -> Lines
        ensures { result ≡ [] }
    {
        Lines {
            items: Vec::new(alloc),
        }
    }

    /// One line.
    pub fn of(alloc: Global, line: String) -> Result<Lines, NoMemory>
        ensures { IfOk result (λ lines. lines ≡ string_bytes line ∷ []) }
    {
        let mut lines = Lines::new(alloc);
        lines.push(line)?;
        Ok(lines)
    }

    /// The lines. Never allocates.
    pub(crate) fn as_slice(&self) -> &[String]
        ensures { map string_bytes result.now ≡ self.now }
    {
        self.items.as_slice()
    }

    /// Adds a line.
    pub fn push(&mut self, line: String) -> Result<(), NoMemory>
        ensures { OnOk result (self.new ≡ self.old ++ string_bytes line ∷ []) }
    {
        self.items.push(line)?;
        Ok(())
    }
}
