//! A package as it is spelled in a line: the lengths of the four tables, and then bytes in hexadecimal, `41*3` for three of them.
ghost use Rattle.std.specs.Prelude.{◌<◌};

use anyhow::Context;
use std::alloc::Global;

/// How many entries each of the caller's tables has.
#[derive(Clone, Copy)]
pub(crate) struct Room {
    pub constraints: usize,
    pub points: usize,
    pub factors: usize,
    pub holdings: usize,
}

/// The value of a hexadecimal digit in lower case, and 0 of any other byte.
fn digit(b: u8) -> u8
    ensures { result < 16 }
{
    match b {
        // a capital is a digit to the library, and none here
        b'A'..=b'F' => 0,
        _ => (b as char).to_digit(16).unwrap_or(0) as u8,
    }
}

/// Adds the bytes of a word such as `41` or `0007*32`.
fn add_word(out: &mut Vec<u8>, word: &str) -> anyhow::Result<()> {
    let (hex, times) = match word.split_once('*') {
        Some((hex, n)) => (hex, n.parse::<u32>()?),
        None => (word, 1),
    };
    for _ in 0..times {
        for [high, low] in hex.as_bytes().as_chunks::<2>().0 {
            out.push(digit(*high) * 16 + digit(*low))?;
        }
    }
    Ok(())
}

/// The next word as a number.
fn count(word: Option<&str>) -> anyhow::Result<usize> {
    let word = word.context("a length is missing")?;
    Ok(word.parse::<usize>()?)
}

/// The lengths of the tables and the bytes of a line.
pub(crate) fn spelled(heap: Global, text: &str) -> anyhow::Result<(Room, Vec<u8>)> {
    let mut out = Vec::new(heap);
    let mut words = text.split(' ');
    let room = Room {
        constraints: count(words.next())?,
        points: count(words.next())?,
        factors: count(words.next())?,
        holdings: count(words.next())?,
    };
    for word in words {
        add_word(&mut out, word)?;
    }
    Ok((room, out))
}
