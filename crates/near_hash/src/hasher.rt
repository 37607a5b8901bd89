// The hash of what a key writes.
ghost use Rattle.std.specs.Prelude.{◌≡◌};
ghost use Rattle.near_hash.specs.Hash.{near_hash, number_in, with_number};

use std::hash::{BuildHasherDefault, FoldHasher, Hasher};

// So many numbers that follow one another have one place.
const NEAR: u64 = 8;

// What tells them apart is counted in this bit and the two above it.
const APART: u64 = 1 << 24;

/// Makes the hasher of each key of a table.
pub type NearHash = BuildHasherDefault<NearHasher>;

/// A hasher by which eight numbers that follow one another, from a multiple of eight on, have one place in a table.
///
/// The number that a key writes last may be near that of another; all that it writes before must be the same. So a key
/// of several numbers writes last the one along which keys are mostly walked. Numbers are those of eight bytes, as
/// `usize` and `u64` are; a key that ends by anything else has the hash of [`FoldHasher`]. Source: this project's own,
/// for tables that look for a hash of 32 bits at the place that its low bits name and keep its eight highest bits beside
/// each key, as those of `indexmap` do.
#[derive(Clone, Copy)]
pub struct NearHasher {
    // What was written before the last number.
    before: FoldHasher,
    // The number that was written last, where a number was.
    last: Option<u64>,
}

impl NearHasher {
    ghost use Rattle.near_hash.specs.Hash.{all_of};

    // All that was written, the last number too.
    #[inline(always)]
    fn all(&self) -> FoldHasher
        ensures { result ≡ all_of self.now }
    {
        match self.last {
            None => self.before,
            Some(number) => with_number(self.before, number),
        }
    }
}

impl Default for NearHasher {
    ghost use Rattle.near_hash.specs.Hash.{is_new};

    ghost is_default = { is_new };

    fn default() -> NearHasher {
        NearHasher {
            before: FoldHasher::default(),
            last: None,
        }
    }
}

impl Hasher for NearHasher {
    ghost use Rattle.near_hash.specs.Hash.{hash_of, with_bytes};

    ghost write = { with_bytes };

    ghost finish = { hash_of };

    #[inline(always)]
    fn finish(&self) -> u64 {
        match self.last {
            None => self.before.finish(),
            Some(number) => near_hash(self.before, number),
        }
    }

    #[inline(always)]
    fn write(&mut self, bytes: &[u8]) {
        self.before = self.all();
        self.last = number_in(bytes);
        if self.last.is_none() {
            self.before.write(bytes);
        }
    }
}

// The hash of a number that is written last.
#[inline(always)]
fn near_hash(before: FoldHasher, number: u64) -> u64
    ensures { result ≡ near_hash before number }
{
    with_number(before, number / NEAR).finish() ^ number % NEAR * APART
}

// What was written, and then a number.
#[inline(always)]
fn with_number(before: FoldHasher, number: u64) -> FoldHasher
    ensures { result ≡ with_number before number }
{
    let mut all = before;
    all.write_u64(number);
    all
}

// The number that the bytes are, where they are eight.
#[inline(always)]
fn number_in(bytes: &[u8]) -> Option<u64>
    ensures { result ≡ number_in bytes.now }
{
    let eight = <[u8; 8]>::try_from(bytes).ok()?;
    Some(u64::from_le_bytes(eight))
}
