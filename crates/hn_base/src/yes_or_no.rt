ghost use Rattle.std.specs.Prelude.{◌≡◌};
ghost use Rattle.hn_base.specs.YesNo.{yes_no};

/// Whether it is so, as a word.
pub fn yes_no(answer: bool) -> &'static str
    ensures { result.now ≡ yes_no answer }
{
    if answer { "yes" } else { "no" }
}
