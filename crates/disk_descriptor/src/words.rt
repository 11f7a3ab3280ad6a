// Words in the value of a page.
ghost use Rattle.std.specs.Prelude.{◌≡◌, ◌+◌, ◌≤◌, length};
ghost use Rattle.pack_model.specs.reading.Bytes.{put_at};

/// Puts words in the place of others, from a word on.
pub(crate) fn put(value: &mut [u16; 256], at: usize, words: &[u16])
    requires { at + length words.now ≤ 256 }
    ensures { value.new ≡ put_at at words.now value.old }
{
    value[at..at + words.len()].copy_from_slice(words);
}
