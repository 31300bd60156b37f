//! What texts are written to, byte by byte.

ghost use Rattle.std.specs.Prelude.{◌++◌, ◌∷◌, ℕ, List, []};

/// What takes the bytes of a text.
pub trait Sink {
    // From the state `start`, this has taken `text`.
    ghost has: { Self → Self → List ℕ → Type 0 };

    /// Takes one more byte.
    fn put(&mut self, byte: u8)
        ensures { (start : Self) → (text : List ℕ) → has start self.old text → has start self.new (text ++ byte ∷ []) };

    /// Takes more bytes.
    fn put_all(&mut self, bytes: &[u8])
        ensures { (start : Self) → (text : List ℕ) → has start self.old text → has start self.new (text ++ bytes.now) };
}

/// A buffer, and the number of bytes that it would have taken if it were long enough.
#[derive(Drop)]
pub struct Window<'a> {
    pub(crate) bytes: &'a mut [u8],
    pub(crate) length: usize,
}

impl Sink for Window<'_> {
    ghost use Rattle.lexical_writer.specs.Buffer.{IsIn};

    ghost has = { IsIn };

    fn put(&mut self, byte: u8) {
        if self.length < self.bytes.len() {
            self.bytes[self.length] = byte;
        }
        self.length = self.length.saturating_add(1);
    }

    fn put_all(&mut self, bytes: &[u8]) {
        let start = self.length;
        self.length = start.saturating_add(bytes.len());
        if self.length <= self.bytes.len() {
            self.bytes[start..self.length].copy_from_slice(bytes);
        }
    }
}
