//! The seed of the tables of names, so that a crafted batch cannot crowd them.

ghost use Rattle.std.specs.Prelude.{◌≡◌, Some, None, IfOk, IsSome, option_map};
ghost use Rattle.odb_check.specs.Starts.{start_of};

use std::hash::{BuildHasher, FoldHasher, Hasher};
use std::io;
use std::random::RandomSource;

/// Where the hashes of the tables of a check begin: a number, or none.
///
/// Whoever knows the seed can choose names that share a hash, and so make look-ups slow. A seed that is
/// drawn at random and kept secret prevents that, and so does [`Seed::none`]. No answer depends on the
/// seed.
#[derive(Clone, Copy, PartialEq, Eq, Drop)]
pub struct Seed {
    number: Option<u64>,
}

impl Seed {
    /// A seed made from a number.
    ///
    /// A fixed number makes runs repeatable; it is safe only for names that can be trusted.
    pub fn new(number: u64) -> Seed
        ensures { result.number ≡ Some number }
    {
        Seed {
            number: Some(number),
        }
    }

    /// A seed made from eight random bytes of the system: their number, the lowest byte first.
    ///
    /// # Errors
    ///
    /// That of the system, if it gives no random bytes. [`Seed::none`] is then safe too.
    pub fn random(rt: &impl RandomSource) -> io::Result<Seed>
        ensures { IfOk result (λ seed. IsSome seed.number) }
    {
        let mut bytes = [0; 8];
        rt.fill_bytes(&mut bytes)?;
        Ok(Seed::new(u64::from_le_bytes(bytes)))
    }

    /// No seed: the tables hash nothing, and a look-up among n names takes O(log n) comparisons,
    /// whatever the names.
    pub fn none() -> Seed
        ensures { result.number ≡ None }
    {
        Seed { number: None }
    }

    /// The start of each hash, if there is a seed.
    pub(crate) fn start(self) -> Option<Start>
        ensures { result ≡ option_map start_of self.number }
    {
        let number = self.number?;
        let mut hasher = FoldHasher::default();
        hasher.write_u64(number);
        Some(Start { hasher })
    }
}

/// A hasher that has read a seed. Each hash starts with a copy of it.
#[derive(Clone, Copy, Drop)]
pub(crate) struct Start {
    hasher: FoldHasher,
}

impl BuildHasher for Start {
    type Hasher = FoldHasher;

    ghost build_hasher = { λ s. s.hasher };

    fn build_hasher(&self) -> FoldHasher {
        self.hasher
    }
}
