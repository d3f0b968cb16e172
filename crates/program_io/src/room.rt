// The buffers of the programs, all zeros, and their sizes.
ghost use Rattle.std.specs.Prelude.{◌≡◌, length};

// The bytes of the input buffer and of the output buffer of t414_batch; the longest case and the longest response have fewer.
pub const BLOCK: usize = 524288;

// Makes a buffer of N zeros. The contract gives the length alone, so that no proof of a caller computes with so many zeros.
pub fn zeros<T: Copy + Default, const N: usize>() -> [T; N]
    ensures { N ≡ length result }
{
    [T::default(); N]
}
