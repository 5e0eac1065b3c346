//! Laws of senders. Each is the contract of a function that does nothing: call it to know its law.

ghost use Rattle.hn_radv.specs.Laws.{SendersAreSpaced, SolicitedIsAnswered};

/// Two advertisements of a sender are at least 3,000 ms apart, whatever is called.
pub fn senders_are_spaced()
    ensures { SendersAreSpaced }
{}

/// A solicitation is answered once 500 ms are past, and 3,000 ms since the last advertisement.
pub fn solicited_is_answered()
    ensures { SolicitedIsAnswered }
{}
