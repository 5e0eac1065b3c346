//! A law of writing: the contract of a function that does nothing.

ghost use Rattle.hn_streams.specs.Laws.{PiecesAppend};

/// What is appended in two pieces is appended.
pub fn pieces_append()
    ensures { PiecesAppend }
{}
