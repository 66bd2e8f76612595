ghost use Rattle.std.specs.Prelude.{◌≡◌, ◌≤◌, length};
ghost use Rattle.ledger.specs.Calls.{load_total};

use ledger::LoadLine;

/// The load of all lines.
pub(crate) fn load_total(loads: &[LoadLine]) -> u64
    requires { length loads.now ≤ 64 }
    ensures { result ≡ load_total loads.now }
{
    loads.iter().map(|x| u64::from(x.mwh)).sum()
}
