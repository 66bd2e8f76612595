ghost use Rattle.std.specs.Prelude.{◌≡◌, length};
ghost use Rattle.examples.specs.Settled.{AllHold, examples};

/// How many settled examples there are. That each of them gives what it must is its contract.
pub fn settled_examples() -> usize
    ensures count { result ≡ length examples }
    ensures hold { AllHold examples }
{
    12
}
