ghost use Rattle.hn_io.specs.Laws.{WordsJoin};

/// Two calls, one after the other, take the words of the first and then those of the second. The function does nothing:
/// call it to know its law.
pub fn words_join()
    ensures { WordsJoin }
{}
