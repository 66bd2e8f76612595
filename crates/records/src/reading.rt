ghost use Rattle.std.specs.Prelude.{◌≡◌, ◌+◌, ◌<◌, length, drop, Some, None, Ok, Err};
ghost use Rattle.refusals.specs.Numbers.{told, refused_at};
ghost use Rattle.records.specs.Frames.{frame_of, End, Bad, One};

use crate::entry::Entry;
use crate::reader::Reader;
use refusals::{Cause, Refusal};

/// The first record of the bytes and what follows it, or nothing where it is empty or past their end.
fn split<'a>(bytes: &'a [u8]) -> Option<(Entry<'a>, &'a [u8])>
    requires { 0 < length bytes.now }
    ensures { elim result [ None ↦ frame_of bytes.now ≡ Bad | Some x ↦ (frame_of bytes.now ≡ One x.0.letter x.0.fields.now x.1.now) × (length x.1.now + length x.0.fields.now + 3 ≡ length bytes.now) ] }
{
    // slice patterns take the two length bytes, the letter and the fields apart, and name them
    let [high, low, rest @ ..] = bytes else {
        return None;
    };
    let len = u16::from_be_bytes([*high, *low]) as usize;
    let (body, after) = rest.split_at_checked(len)?;
    let [letter, fields @ ..] = body else {
        return None;
    };
    let entry = Entry {
        letter: *letter,
        fields,
    };
    Some((entry, after))
}

impl<'a> Reader<'a> {
    /// A reader at record 0 of a package, which stands after the package's length and version.
    pub fn new(bytes: &'a [u8]) -> Reader<'a>
        ensures { (result.rest.now ≡ drop 5 bytes.now) × (result.place ≡ 0) }
    {
        Reader {
            rest: bytes.get(5..).unwrap_or(&[]),
            place: 0,
        }
    }

    /// The next record, nothing after the last one, or refusal 3 where it is empty or past the end; the reader then
    /// stays.
    pub fn next(&mut self) -> Result<Option<Entry<'a>>, Refusal>
        ensures { elim result [
          | Ok o ↦ elim o [
            | None ↦ (frame_of self.old.rest.now ≡ End) × (self.new ≡ self.old)
            | Some e ↦ (frame_of self.old.rest.now ≡ One e.letter e.fields.now self.new.rest.now) × (self.new.place ≡ self.old.place + 1) × (length self.new.rest.now + length e.fields.now + 3 ≡ length self.old.rest.now)
          ]
          | Err x ↦ (frame_of self.old.rest.now ≡ Bad) × (told x ≡ refused_at 3 self.old.place) × (self.new ≡ self.old)
        ] }
    {
        if self.rest.is_empty() {
            return Ok(None);
        }
        let (entry, after) = split(self.rest).ok_or(Cause::RecordLength.at(self.place))?;
        self.rest = after;
        self.place += 1;
        Ok(Some(entry))
    }
}
