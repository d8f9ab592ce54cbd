//! A hasher of a seed, by which a conversion to binary finds the ids of symbols.
use std::hash::{BuildHasher, DefaultHasher, Hasher};

/// SipHash-1-3 of a seed and then of the text: whoever doesn't know the seed can choose no texts that
/// collide. What is written doesn't depend on it.
#[derive(Clone, Copy)]
pub struct SeededHasher {
    begun: DefaultHasher,
}

impl SeededHasher {
    /// The hasher of this seed.
    pub fn new(low: u64, high: u64) -> SeededHasher {
        let mut begun = DefaultHasher::new();
        begun.write_u64(low);
        begun.write_u64(high);
        SeededHasher { begun }
    }
}

impl BuildHasher for SeededHasher {
    type Hasher = DefaultHasher;

    ghost build_hasher = { λ seeded. seeded.begun };

    fn build_hasher(&self) -> DefaultHasher {
        self.begun
    }
}
