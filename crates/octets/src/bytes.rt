// Bytes by value, at most so many.

// The first `len` of the bytes count. No `Vec`, since a library has no heap.
#[derive(Clone, Copy)]
pub struct Bytes<const N: usize> {
    pub len: usize,
    pub bytes: [u8; N],
}
