// `both` stands for `&&`: its two tests are made first, then put together. So a function that tests many fields has
// one path, and its proof one case.
ghost use Rattle.std.specs.Prelude.{◌≡◌};
ghost use Rattle.octets.specs.Choice.{both as Choice·both};

pub fn both(a: bool, b: bool) -> bool
    ensures { result ≡ Choice·both a b }
{
    if a { b } else { false }
}
