//! Decimal digits, two at a time: a division for each pair of them, and the pair from a table.
ghost use Rattle.std.specs.Prelude.{◌≡◌, ◌+◌, ◌<◌, ◌≤◌, length, decimal};
ghost use Rattle.buffer.specs.Appends.{Appends, HasRoom};
ghost use Rattle.statement.specs.Groups.{pair_of, four_of};

use crate::words::put_word;
use buffer::Output;

/// The two digits of each number below 100, one number after the other.
const PAIRS: [u8; 200] = *b"0001020304050607080910111213141516171819\
    2021222324252627282930313233343536373839\
    4041424344454647484950515253545556575859\
    6061626364656667686970717273747576777879\
    8081828384858687888990919293949596979899";

/// The two digits of a number.
fn pair(n: u32) -> [u8; 2]
    requires { n < 100 }
    ensures { result ≡ pair_of n }
{
    let at = 2 * n as usize;
    [PAIRS[at], PAIRS[at + 1]]
}

/// Writes two digits.
fn put_pair(out: &mut Output, n: u32)
    requires small { n < 100 }
    requires room { HasRoom out.old 2 }
    ensures { Appends out.old (pair_of n) out.new }
{
    put_word(out, &pair(n));
}

/// Writes four digits, the first of which may be zeros.
fn put_four(out: &mut Output, n: u32)
    requires small { n < 10000 }
    requires room { HasRoom out.old 4 }
    ensures { Appends out.old (four_of n) out.new }
{
    put_pair(out, n / 100);
    put_pair(out, n % 100);
}

/// Writes a number of at most four digits.
fn put_short(out: &mut Output, n: u32)
    requires small { n < 10000 }
    requires room { HasRoom out.old (length (decimal n)) }
    ensures { Appends out.old (decimal n) out.new }
{
    if n < 10 {
        put_word(out, &[b'0' + n as u8])
    } else if n < 100 {
        put_pair(out, n)
    } else if n < 1_000 {
        put_word(out, &[b'0' + (n / 100) as u8]);
        put_pair(out, n % 100)
    } else {
        put_four(out, n)
    }
}

/// Writes a number of at most eight digits.
pub(crate) fn put_eight(out: &mut Output, n: u32)
    requires small { n < 100000000 }
    requires room { HasRoom out.old (length (decimal n)) }
    ensures { Appends out.old (decimal n) out.new }
{
    if n < 10_000 {
        put_short(out, n)
    } else {
        put_short(out, n / 10_000);
        put_four(out, n % 10_000)
    }
}

/// Writes a number of any length.
fn put_long(out: &mut Output, n: u64)
    requires { HasRoom out.old (length (decimal n)) }
    ensures { Appends out.old (decimal n) out.new }
{
    if n < 100_000_000 {
        put_eight(out, n as u32)
    } else {
        put_long(out, n / 10_000);
        put_four(out, (n % 10_000) as u32)
    }
}

/// Writes a number. Most have at most eight digits, and are written without the recursion's cost.
pub(crate) fn put_decimal(out: &mut Output, n: u64)
    requires { HasRoom out.old (length (decimal n)) }
    ensures { Appends out.old (decimal n) out.new }
{
    if n < 100_000_000 {
        put_eight(out, n as u32)
    } else {
        put_long(out, n)
    }
}
