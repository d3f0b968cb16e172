// Words to bytes and back, little-endian.
ghost use Rattle.std.specs.Prelude.{◌*◌, ◌≤◌, length};

// Fills dst with the words at the start of src.
pub(crate) fn take_words(src: &[u8], dst: &mut [u32])
    requires { 4 * length dst.old ≤ length src.now }
{
    let (words, _) = src.as_chunks();
    for (word, bytes) in dst.iter_mut().zip(words) {
        *word = u32::from_le_bytes(*bytes);
    }
}

// Writes the words of src at the start of dst.
pub(crate) fn give_words(src: &[u32], dst: &mut [u8])
    requires { 4 * length src.now ≤ length dst.old }
{
    let (words, _) = dst.as_chunks_mut();
    for (bytes, word) in words.iter_mut().zip(src) {
        *bytes = word.to_le_bytes();
    }
}
