//! Some bytes of a range, as they are kept.
ghost use Rattle.std.specs.Prelude.{◌≡◌, length};
ghost use Rattle.hm_outside.specs.Piece.{bytes_in};

/// Bytes that pages tell: the same byte so many times, or bytes that stand in memory.
#[derive(Clone, Copy)]
pub enum Piece<'a> {
    Same(u8, usize),
    Bytes(&'a [u8]),
}

impl<'a> Piece<'a> {
    /// How many bytes there are.
    pub fn len(&self) -> usize
        ensures { result ≡ length (bytes_in self.now) }
    {
        match self {
            Piece::Same(_, len) => *len,
            Piece::Bytes(bytes) => bytes.len(),
        }
    }

    /// Copies them over as many.
    pub fn copy_to(&self, into: &mut [u8])
        requires { length into.old ≡ length (bytes_in self.now) }
        ensures { into.new ≡ bytes_in self.now }
    {
        match self {
            Piece::Same(byte, _) => into.fill(*byte),
            Piece::Bytes(bytes) => into.copy_from_slice(bytes),
        }
    }
}
