use hn_base::Words;
use hn_pair::Held;

/// What the assignment subroutine leaves, and the random words that it took, in order.
#[derive(Drop)]
pub struct Ran {
    pub held: Held,
    pub words: Words,
}
