ghost use Rattle.std.specs.Prelude.{◌≡◌, List, [], ◌∷◌, ◌++◌};
ghost use Rattle.std.specs.Borrow.{ftrue};

use std::marker::{Model, PhantomData};

/// What came to pass, oldest first: a list that only proofs read. It takes no memory, and its methods do nothing at
/// run time.
#[derive(Drop)]
pub struct Past<A> {
    of: PhantomData<A>,
    pub ghost items: { List A },
}

impl<A> Model for Past<A> {
    ghost also_owns = { λ _. ftrue };
}

impl<A> Past<A> {
    /// Nothing came to pass yet. Never allocates.
    pub fn new() -> Past<A>
        ensures { result.items ≡ [] }
    {
        Past { of: PhantomData }
    }

    /// The same list with this item at its end. Never allocates.
    pub fn and(&self, item: &A) -> Past<A>
        ensures { result.items ≡ self.now.items ++ item.now ∷ [] }
    {
        Past { of: PhantomData }
    }
}
