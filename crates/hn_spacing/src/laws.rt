//! The law. It is the contract of a function that does nothing: call it to know the law.

ghost use Rattle.hn_spacing.specs.Spacing.{RaLinesAreSpaced};

/// In every play the `ra` lines of a sender are at least 3,000 ms apart (RFC 4861, sections 6.2.4 and 6.2.6:
/// MIN_DELAY_BETWEEN_RAS), whether its lines are all done, one is refused, the wire fails, or all is cut.
pub fn ra_lines_are_spaced()
    ensures { RaLinesAreSpaced }
{}
