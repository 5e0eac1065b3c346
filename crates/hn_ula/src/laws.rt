//! Laws of the rule. Each is the contract of a function that does nothing: call it to know its law.

ghost use Rattle.hn_ula.specs.Laws.{DecisionIsUnique, DecisionExists, AnnouncedIsPrefix};

/// Over one stream of words a router decides one thing, and takes the same words for it.
pub fn decision_is_unique()
    ensures { DecisionIsUnique }
{}

/// Over each stream of words a router decides something: it cannot be that it does not. With `decision_is_unique` it decides
/// exactly one thing.
pub fn decision_exists()
    ensures { DecisionExists }
{}

/// The prefix that a router announces is one, where each word has 32 bits.
pub fn announced_is_a_prefix()
    ensures { AnnouncedIsPrefix }
{}
