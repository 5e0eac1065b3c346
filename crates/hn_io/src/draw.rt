ghost use Rattle.std.specs.Prelude.{◌≡◌, ◌<◌, ◌%◌, ℕ, suc, Option, Some, IfSome};

/// Where random words come from.
pub trait Draw {
    /// The words to come, from place 0, where they are told.
    ghost words: { Self → Option (ℕ → ℕ) };

    /// The next word. Never allocates.
    fn next(&mut self) -> u32
        ensures word { IfSome (words self.old) (λ stream. result ≡ stream 0) }
        ensures rest { IfSome (words self.old) (λ stream. words self.new ≡ Some (λ place. stream (suc place))) };
}

/// The words of a script without a seed: each is 0.
#[derive(Clone, Copy)]
pub struct Zeros;

impl Draw for Zeros {
    ghost words = { λ _. Some (λ _. 0) };

    fn next(&mut self) -> u32
        ensures { result ≡ 0 }
    {
        0
    }
}

/// The next word modulo `n`, a number below `n`. Never allocates.
pub fn below<D: Draw>(draw: &mut D, n: u32) -> u32
    requires { 0 < n }
    ensures below { result < n }
    ensures word { IfSome (D.words draw.old) (λ stream. result ≡ stream 0 % n) }
    ensures rest { IfSome (D.words draw.old)
        (λ stream. D.words draw.new ≡ Some (λ place. stream (suc place))) }
{
    draw.next() % n
}
