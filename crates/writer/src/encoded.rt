//! Entries of an hour's tables with bytes of their own in a package.
ghost use Rattle.std.specs.Prelude.{◌≡◌, ℕ, List, length};
ghost use Rattle.codec.specs.Bytes.{twos2};
ghost use Rattle.codec.specs.Records.{encode_constraint, encode_holding, HoldingFits};
ghost use Rattle.records.specs.Frames.{framed};
ghost use Rattle.buffer.specs.Appends.{Appends, HasRoom};

use buffer::Output;
use codec::{constraint_bytes, factor_bytes, holding_bytes};
use rows::{ConstraintRow, HoldingRow};

/// An entry with its bytes. What its figures' types say of it is `fits`.
pub(crate) trait Encoded {
    ghost bytes: { Self → List ℕ };

    ghost fits: { Self → Type 0 };

    fn put_bytes(&self, out: &mut Output)
        requires { HasRoom out.old (length (bytes self.now)) }
        ensures wrote { Appends out.old (bytes self.now) out.new }
        ensures fits { fits self.now };
}

/// A constraint is a record of its own.
impl Encoded for ConstraintRow {
    ghost bytes = { λ r. framed 67 (encode_constraint r) };

    ghost fits = { λ _. Unit {0} };

    fn put_bytes(&self, out: &mut Output) {
        let [a, b, c, d, e, f] = constraint_bytes(self);
        out.put(&[0, 7, b'C', a, b, c, d, e, f]);
    }
}

/// A shift factor is a part of its point's record.
impl Encoded for i16 {
    ghost bytes = { twos2 };

    ghost fits = { λ _. Unit {0} };

    fn put_bytes(&self, out: &mut Output) {
        out.put(&factor_bytes(*self));
    }
}

/// A holding is a record of its own.
impl Encoded for HoldingRow {
    ghost bytes = { λ r. framed 72 (encode_holding r) };

    ghost fits = { HoldingFits };

    fn put_bytes(&self, out: &mut Output) {
        out.put(&[0, 21, b'H']);
        out.put(&holding_bytes(self));
    }
}
