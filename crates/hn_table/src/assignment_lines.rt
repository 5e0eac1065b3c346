//! The lines of assignments and backoffs.

ghost use Rattle.std.specs.Prelude.{◌≡◌, ◌++◌, OnOk, string_bytes};
ghost use Rattle.std.specs.List.{flat_map};
ghost use Rattle.hn_table.specs.Lines.{assigned_line, backoff_line};

use hn_assign::{Assigned, Backoff};
use hn_base::yes_no;
use std::alloc::AllocError;
use std::fmt;

/// The priority with which an assignment is published, if it is.
#[derive(Clone, Copy)]
struct Published(Option<u8>);

/// The priority, or that there is none.
impl fmt::Display for Published {
    ghost use Rattle.std.specs.Prelude.{Some};
    ghost use Rattle.hn_table.specs.Lines.{published_word};

    ghost output = { λ published. Some (published_word published.0) };

    fn fmt<W: fmt::Write>(&self, f: &mut fmt::Formatter<W>) -> fmt::Result {
        match self.0 {
            Some(priority) => write!(f, "{priority}"),
            None => f.write_str("no"),
        }
    }
}

/// Adds the line of an assignment.
fn push_assignment(text: &mut String, one: &Assigned) -> Result<(), AllocError>
    ensures { OnOk result (string_bytes text.new ≡ string_bytes text.old ++ assigned_line one.now) }
{
    let e = one.endpoint.0;
    let delegated = one.delegated.text();
    let prefix = one.prefix.text();
    let since = one.since;
    let applied = yes_no(one.applied);
    let published = Published(one.published);
    write!(
        text,
        "assigned ep={e} in={delegated} is={prefix} since={since} applied={applied} published={published}\n"
    )
}

/// Adds a line for each assignment.
pub(crate) fn push_assignments(text: &mut String, assigned: &[Assigned]) -> Result<(), AllocError>
    ensures { OnOk result (string_bytes text.new ≡ string_bytes text.old ++ flat_map assigned_line assigned.now) }
{
    for one in assigned {
        push_assignment(text, one)?;
    }
    Ok(())
}

/// Adds the line of a backoff.
fn push_backoff(text: &mut String, one: &Backoff) -> Result<(), AllocError>
    ensures { OnOk result (string_bytes text.new ≡ string_bytes text.old ++ backoff_line one.now) }
{
    let e = one.endpoint.0;
    let delegated = one.delegated.text();
    let due = one.due;
    write!(text, "backoff ep={e} in={delegated} due={due}\n")
}

/// Adds a line for each backoff.
pub(crate) fn push_backoffs(text: &mut String, backoffs: &[Backoff]) -> Result<(), AllocError>
    ensures { OnOk result (string_bytes text.new ≡ string_bytes text.old ++ flat_map backoff_line backoffs.now) }
{
    for one in backoffs {
        push_backoff(text, one)?;
    }
    Ok(())
}
