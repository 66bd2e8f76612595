//! Numbers in decimal digits.
ghost use Rattle.std.specs.Prelude.{◌≡◌, ◌+◌, ◌<◌, ◌≤◌, ◌++◌, length, decimal};
ghost use Rattle.std.specs.Fmt.{sign_text, signed_decimal};
ghost use Rattle.buffer.specs.Appends.{Appends, HasRoom};

use crate::digits::{put_decimal, put_eight};
use crate::words::put_word;
use buffer::Output;

/// How many digits a number has.
pub(crate) fn decimal_len(n: u64) -> usize
    ensures value { result ≡ length (decimal n) }
    ensures bound { result ≤ 20 }
{
    if n < 10 { 1 } else { decimal_len(n / 10) + 1 }
}

/// How many bytes a signed number has.
pub(crate) fn signed_len(n: &i64) -> usize
    ensures value { result ≡ length (signed_decimal n.now) }
    ensures bound { result ≤ 21 }
{
    usize::from(*n < 0) + decimal_len(n.unsigned_abs())
}

/// Writes the sign of a number, which is a `-` where it is below 0 and nothing elsewhere.
fn put_sign(out: &mut Output, negative: bool)
    requires { HasRoom out.old (length (sign_text negative)) }
    ensures { Appends out.old (sign_text negative) out.new }
{
    if negative {
        put_word(out, b"-");
    }
}

/// Writes a signed number.
fn put_signed(out: &mut Output, n: i64)
    requires { HasRoom out.old (length (signed_decimal n)) }
    ensures { Appends out.old (signed_decimal n) out.new }
{
    put_sign(out, n < 0);
    put_decimal(out, n.unsigned_abs());
}

/// Writes a word and a number that is not below 0 and has at most eight digits.
pub(crate) fn put_count(out: &mut Output, word: &[u8], n: u32)
    requires small { n < 100000000 }
    requires room { HasRoom out.old (length word.now + length (decimal n)) }
    ensures { Appends out.old (word.now ++ decimal n) out.new }
{
    put_word(out, word);
    put_eight(out, n);
}

/// Writes a word and a number.
pub(crate) fn put_told(out: &mut Output, word: &[u8], n: &i64)
    requires { HasRoom out.old (length word.now + length (signed_decimal n.now)) }
    ensures { Appends out.old (word.now ++ signed_decimal n.now) out.new }
{
    put_word(out, word);
    put_signed(out, *n);
}
