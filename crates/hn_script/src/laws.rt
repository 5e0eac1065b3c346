//! Laws: functions without work, whose clauses say what holds of the definitions.

ghost use Rattle.hn_script.specs.Laws.{AtMostOneScript, AtMostOneFault, FaultExcludesScript, LinesAreOfVersion, PrintedIsRead};
ghost use Rattle.hn_script.specs.Laws.{ScriptIsLimited, ValuesFit, SoakIsAScript, AtMostOneNodeFile, AtMostOneNodeFault};
ghost use Rattle.hn_script.specs.Laws.{FaultExcludesNodeFile};
ghost use Rattle.hn_script.specs.Laws.{AtMostOneEntry, DenseBegins, DenseGoesOn, DenseHasFewLines, DenseIsAScript};

use hn_prefix::{read_form_is_of_one, written_form_is_read};

/// Bytes are at most one script, so that `parse` has one answer.
pub fn script_is_unique()
    ensures { AtMostOneScript }
{
    read_form_is_of_one();
}

/// The text of a line gives one thing, so that `read_line` has one answer: one line of its version, or nothing where it is
/// skipped.
pub fn line_is_unique()
    ensures { AtMostOneEntry }
{
    read_form_is_of_one();
}

/// A script may be written line by line, from its first line on. Where none of its lines is skipped, and a text is a line of its
/// version, its bytes with this text and an LF are the script with this line at its end. It has fewer lines than bytes.
pub fn lines_are_added()
    ensures begins { DenseBegins }
    ensures goes_on { DenseGoesOn }
    ensures is_a_script { DenseIsAScript }
    ensures few { DenseHasFewLines }
{}

/// Bytes have at most one first fault.
pub fn fault_is_unique()
    ensures { AtMostOneFault }
{}

/// Bytes with a first fault are no script. `first_fault` decides which of both they are.
pub fn fault_excludes_script()
    ensures { FaultExcludesScript }
{}

/// The lines of a script are of its version. So a script of version 1 has no line that only version 2 has.
pub fn lines_are_of_version()
    ensures { LinesAreOfVersion }
{}

/// What `print` writes is the script again, but for the numbers of lines, if its lines are of its version, their values
/// are in their ranges, each line is short enough, and all lines together are.
pub fn printed_is_read()
    ensures { PrintedIsRead }
{
    written_form_is_read();
}

/// In a script no endpoint is attached under number 0, and no moment or span of time is above 2^48.
pub fn script_is_limited()
    ensures { ScriptIsLimited }
{}

/// The values of the lines of a script fit: an identifier and the number of an endpoint have 32 bits, a delegated prefix is one
/// and has lifetimes of 32 bits, the prefixes of a private link have from 1 to 64 bits, and what is injected is of bytes.
pub fn values_fit()
    ensures { ValuesFit }
{}

/// The text of each soak is a script.
pub fn soak_is_a_script()
    ensures { SoakIsAScript }
{
    printed_is_read();
}

/// Bytes are at most one node file.
pub fn node_file_is_unique()
    ensures { AtMostOneNodeFile }
{
    read_form_is_of_one();
}

/// Bytes have at most one first fault as a node file.
pub fn node_fault_is_unique()
    ensures { AtMostOneNodeFault }
{}

/// Bytes with a first fault as a node file are none.
pub fn fault_excludes_node_file()
    ensures { FaultExcludesNodeFile }
{}
