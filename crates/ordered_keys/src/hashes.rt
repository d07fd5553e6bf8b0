//! How the texts of a set are hashed, so that nobody can choose texts that hash alike.

use std::hash::{BuildHasher, DefaultHasher, Hash, Hasher};

/// Hashes each text behind a digest of all texts of a set. Who chooses texts for a digest changes the digest.
#[derive(Clone, Copy)]
pub struct TextHashes {
    /// What has been hashed before each text.
    begun: DefaultHasher,
}

impl TextHashes {
    /// The hashes of a set of these texts.
    pub(crate) fn of(texts: &[String]) -> TextHashes {
        let mut all = DefaultHasher::new();
        texts.hash(&mut all);
        let mut begun = DefaultHasher::new();
        begun.write_u64(all.finish());
        TextHashes { begun }
    }
}

impl BuildHasher for TextHashes {
    type Hasher = DefaultHasher;

    ghost build_hasher = { λ hashes. hashes.begun };

    fn build_hasher(&self) -> DefaultHasher {
        self.begun
    }
}
