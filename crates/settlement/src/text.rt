ghost use Rattle.std.specs.Prelude.{◌≡◌, IfOk};
ghost use Rattle.refusals.specs.Numbers.{told};
ghost use Rattle.settlement.specs.Settled.{refused_line};

use refusals::Refusal;
use std::alloc::{AllocError, Global};

/// The line that is printed of a refusal; unless memory fails.
pub fn refused_line(heap: Global, refusal: Refusal) -> Result<Vec<u8>, AllocError>
    ensures { IfOk result (λ v. v.items ≡ refused_line (told refusal)) }
{
    let line = format!(in heap; "{refusal}\n")?;
    Ok(line.into_bytes())
}
