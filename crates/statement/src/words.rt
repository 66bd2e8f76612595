ghost use Rattle.std.specs.Prelude.{length};
ghost use Rattle.buffer.specs.Appends.{Appends, HasRoom};

use buffer::Output;

/// Writes a word, for which there is room. The room is known for a whole line, so it is not tested for each of its words,
/// as `Output::put` would.
// `append` of `buffer` is this, but asks for room, so it is not public there
pub(crate) fn put_word(out: &mut Output, word: &[u8])
    requires { HasRoom out.old (length word.now) }
    ensures { Appends out.old word.now out.new }
{
    let to = out.len + word.len();
    out.buffer[out.len..to].copy_from_slice(word);
    out.len = to;
}
