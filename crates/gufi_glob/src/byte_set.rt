//! Sets of bytes.
ghost use Rattle.std.specs.Prelude.{◌≡◌, ℕ, ◌<◌, ◌&&◌, ◌||◌, ◌==◌, false, length};
ghost use Rattle.std.specs.List.{list_any};
ghost use Rattle.gufi_glob.specs.ByteSets.{has_byte};
ghost use Rattle.gufi_glob.specs.Patterns.{is_within};

/// A set of bytes, of which each has its bit: 256 of them.
#[derive(Clone, Copy)]
pub(crate) struct ByteSet {
    words: [u64; 4],
    ghost whole: { length words ≡ 4 },
}

impl ByteSet {
    fn new() -> ByteSet
        ensures { (b : ℕ) → b < 256 → has_byte result.words b ≡ false }
    {
        ByteSet { words: [0; 4] }
    }

    fn insert(&mut self, byte: usize)
        requires { byte < 256 }
        ensures { (b : ℕ) → b < 256 → has_byte self.new.words b ≡ (b == byte || has_byte self.old.words b) }
    {
        self.words[byte / 64] |= 1 << (byte % 64);
    }

    /// The bytes of a range, whose ends belong to it.
    fn insert_range(&mut self, from: u8, to: u8)
        ensures { (b : ℕ) → b < 256 → has_byte self.new.words b ≡ (is_within b (from, to) || has_byte self.old.words b) }
    {
        'bytes: for byte in usize::from(from)..usize::from(to) + 1 {
            self.insert(byte);
        }
    }

    /// The bytes of some ranges.
    pub(crate) fn of(ranges: &[(u8, u8)]) -> ByteSet
        ensures { (b : ℕ) → b < 256 → has_byte result.words b ≡ list_any (is_within b) ranges.now }
    {
        let mut set = ByteSet::new();
        'each: for range in ranges {
            set.insert_range(range.0, range.1);
        }
        set
    }

    /// Whether a byte belongs to it.
    #[inline]
    pub(crate) fn has(&self, byte: u8) -> bool
        ensures { result ≡ has_byte self.now.words byte }
    {
        (self.words[usize::from(byte) / 64] >> (byte % 64)) & 1 == 1
    }
}
