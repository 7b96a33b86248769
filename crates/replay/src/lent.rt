// A buffer that is lent to calls.
ghost use Rattle.std.specs.Prelude.{◌≤◌};

// The first `length` bytes are lent: at most N.
#[derive(Drop)]
pub(crate) struct Lent<const N: usize> {
    bytes: [u8; N],
    length: usize,
    ghost within: { length ≤ N },
}

impl<const N: usize> Lent<N> {
    // A buffer of no bytes.
    pub(crate) fn new() -> Self {
        Lent {
            bytes: [0; N],
            length: 0,
        }
    }

    // So many bytes, each this one.
    pub(crate) fn fill(&mut self, length: usize, byte: u8) {
        let n = length.min(N);
        self.bytes[..n].fill(byte);
        self.length = n;
    }

    pub(crate) fn copy(&mut self, from: &[u8]) {
        let n = from.len().min(N);
        self.bytes[..n].copy_from_slice(&from[..n]);
        self.length = n;
    }

    pub(crate) fn as_slice(&self) -> &[u8] {
        &self.bytes[..self.length]
    }

    pub(crate) fn as_mut_slice(&mut self) -> &mut [u8] {
        let n = self.length;
        let all = &mut self.bytes;
        &mut all[..n]
    }
}
