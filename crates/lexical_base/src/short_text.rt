//! The type [`ShortText`]: a text that a `const fn` can make.

ghost use Rattle.std.specs.Prelude.{◌≡◌, ◌≢◌, ◌⊎◌, ◌<◌, ◌≤◌, ◌+◌, ◌++◌, ◌∷◌, [], IsTrue, IsFalse, length, take, codes};
ghost use Rattle.std.specs.Char.{is_ascii_graphic};
ghost use Rattle.std.specs.Fmt.{decimal};

use crate::digit::digit_to_char;
use std::marker::Model;

// The number of bytes that a text can have.
const CAPACITY: usize = 256;

/// A text of at most 256 bytes. Each call appends a piece to the text. A piece that does not fit is left out.
#[derive(Drop)]
#[doc(hidden)]
pub struct ShortText {
    bytes: [u8; CAPACITY],
    length: usize,
}

impl Model for ShortText {
    ghost use Rattle.std.specs.Prelude.{ℕ, List, take, ◌≤◌, IsUtf8};

    ghost Value = { List ℕ };

    ghost view = { λ text. take text.length text.bytes };

    ghost invariant = { λ text. (text.length ≤ 256) × IsUtf8 (take text.length text.bytes) };
}

impl ShortText {
    /// Returns a text that begins with `words`.
    #[must_use]
    pub const fn of(words: &str) -> ShortText
        ensures { length words.now ≤ 256 → result ≡ words.now }
    {
        let mut text = ShortText {
            bytes: [0; CAPACITY],
            length: 0,
        };
        text.put(words);
        text
    }

    /// Returns the text as a string.
    #[must_use]
    pub fn as_str(&self) -> &str
        ensures value { result.now ≡ self.now }
        ensures short { length result.now ≤ 256 }
    {
        match std::str::from_utf8(self.bytes.split_at(self.length).0) {
            Ok(text) => text,
            Err(_) => "",
        }
    }

    /// Appends `words`.
    #[must_use]
    pub const fn and(mut self, words: &str) -> ShortText
        ensures { length self + length words.now ≤ 256 → result ≡ self ++ words.now }
    {
        self.put(words);
        self
    }

    /// Appends `n` in decimal, which has at most 20 digits.
    #[must_use]
    pub const fn decimal(mut self, n: usize) -> ShortText
        ensures { length self + 20 ≤ 256 → result ≡ self ++ decimal n }
    {
        self.put_decimal(n);
        self
    }

    /// Appends `0x`, and `n` in hexadecimal with uppercase letters, such as `0x80000000`.
    #[must_use]
    pub const fn hexadecimal(mut self, n: u128) -> ShortText
        ensures { length self + 2 ≤ 256 → take (length self + 2) result ≡ self ++ codes "0x" }
    {
        self.put("0x");
        self.put_hexadecimal(n);
        self
    }

    /// Appends `byte` as a character in single quotes, such as `'x'`. If the byte is a single quote, or is not a visible
    /// ASCII character, appends it in decimal.
    #[must_use]
    pub const fn quoted(mut self, byte: u8) -> ShortText
        ensures character { IsTrue (is_ascii_graphic byte) → byte ≢ 39 → length self + 3 ≤ 256 →
            result ≡ self ++ 39 ∷ byte ∷ 39 ∷ [] }
        ensures number { IsFalse (is_ascii_graphic byte) ⊎ (byte ≡ 39) → length self + 20 ≤ 256 →
            result ≡ self ++ decimal byte }
    {
        if byte.is_ascii_graphic() && byte != b'\'' {
            self.put_byte(b'\'');
            self.put_byte(byte);
            self.put_byte(b'\'');
            self
        } else {
            self.decimal(byte as usize)
        }
    }

    // Appends `words`, if they fit.
    const fn put(&mut self, words: &str)
        ensures { length self.old + length words.now ≤ 256 → self.new ≡ self.old ++ words.now }
    {
        let start = self.length;
        // The length is never above the capacity. A compiler that knows this copies all bytes at once.
        if start > CAPACITY || words.len() > CAPACITY - start {
            return;
        }
        let mut index = 0;
        while index < words.len() {
            self.bytes[start + index] = words.as_bytes()[index];
            index += 1;
        }
        self.length = start + words.len();
    }

    // Appends `byte`, if it is an ASCII character and fits.
    const fn put_byte(&mut self, byte: u8)
        ensures fits { byte < 128 → length self.old < 256 → self.new ≡ self.old ++ byte ∷ [] }
        ensures kept { take (length self.old) self.new ≡ self.old }
    {
        if byte.is_ascii() && self.length < CAPACITY {
            self.bytes[self.length] = byte;
            self.length += 1;
        }
    }

    // Appends the decimal digits of `n` that fit.
    const fn put_decimal(&mut self, n: usize)
        ensures { length self.old + length (decimal n) ≤ 256 → self.new ≡ self.old ++ decimal n }
    {
        let has_front = n >= 10;
        if has_front {
            self.put_decimal(n / 10);
        }
        self.put_byte(b'0' + (n % 10) as u8);
    }

    // Appends the hexadecimal digits of `n` that fit.
    const fn put_hexadecimal(&mut self, n: u128)
        ensures { take (length self.old) self.new ≡ self.old }
    {
        let has_front = n >= 16;
        if has_front {
            self.put_hexadecimal(n / 16);
        }
        self.put_byte(digit_to_char((n % 16) as u32));
    }
}
