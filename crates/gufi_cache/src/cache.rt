//! The cache.

ghost use Rattle.std.specs.Prelude.{◌≡◌, ◌↔◌, ◌≤◌, Contains, [], length, option_map, IfOk, OnOk, OnErr, IsSome, IsOk};
ghost use Rattle.std.specs.Borrow.{sem};
ghost use Rattle.std.specs.List.{IsDistinct};
ghost use Rattle.std.specs.Map.{keys_of};
ghost use Rattle.gufi_cache.specs.Keys.{same_key};
ghost use Rattle.gufi_cache.specs.Pairs.{kept, text_of, moved_to_front, put_in_front};
ghost use Rattle.gufi_cache.specs.Ends.{EndsAs};

use crate::key::CacheKey;
use gufi_base::{Bytes, Memory};
use lru::LruCache;
use std::alloc::Global;
use std::marker::Model;
use std::num::NonZeroUsize;

/// The texts that were kept last, by their keys.
///
/// A look-up and a pair that is kept take time by the bytes of the key, and not by the number of pairs, unless hashes collide:
/// then at most as many comparisons as there are pairs.
#[derive(Drop)]
pub struct Cache {
    texts: LruCache<CacheKey, Bytes>,
}

impl Model for Cache {
    ghost use Rattle.gufi_cache.specs.Pairs.{Kept, kept};

    ghost Value = { Kept };

    ghost view = { λ c. kept c.texts.entries c.texts.cap };
}

impl Cache {
    /// A cache of no pair, which may keep so many. It asks for the room of its table once.
    pub fn new(alloc: Global, capacity: u32) -> Result<Cache, Memory>
        requires { (1 ≤ capacity) × (capacity ≤ 256) }
        ensures { IfOk result (λ cache. cache ≡ kept [] capacity) }
    {
        let most = NonZeroUsize::new(capacity as usize).unwrap();
        let texts = LruCache::new(alloc, most)?;
        Ok(Cache { texts })
    }

    /// How many pairs it has.
    pub fn count(&self) -> usize
        ensures value { result ≡ length self.now.pairs }
        ensures distinct { IsDistinct same_key (keys_of self.now.pairs) }
        ensures within { length self.now.pairs ≤ self.now.capacity }
    {
        self.texts.len()
    }

    /// The text of a key, where it is kept; its pair is then the most recent. Takes no memory.
    #[tactic(auto, using(crate::proofs::Present::shown_in_keys))]
    pub fn find(&mut self, key: &CacheKey) -> Option<&[u8]>
        ensures* moved { sem 𝓛 (EndsAs self.entry (moved_to_front key.now self.old)) }
        ensures present { IsSome result ↔ Contains (keys_of self.old.pairs) key.now }
        ensures text { option_map (λ text. text.now) result ≡ text_of key.now self.old }
    {
        self.shown(key)
    }

    fn shown(&mut self, key: &CacheKey) -> Option<&[u8]>
        ensures* moved { sem 𝓛 (EndsAs self.entry (moved_to_front key.now self.old)) }
        ensures text { option_map (λ text. text.now) result ≡ text_of key.now self.old }
    {
        match self.texts.get(key) {
            Some(text) => Some(text.as_slice()),
            None => None,
        }
    }

    /// Keeps a text under a key, as the most recent. Past the capacity the last pair is dropped.
    ///
    /// A key that is there takes no memory, and its old text is dropped. Where memory is wanted, all stays as it was.
    #[tactic(auto, using(crate::proofs::Present::found_in_keys))]
    pub fn keep(&mut self, key: CacheKey, text: Vec<u8>) -> Result<(), Memory>
        ensures kept { OnOk result (self.new ≡ put_in_front key text.items self.old) }
        ensures memory { OnErr result (self.new ≡ self.old) }
        ensures replaced { Contains (keys_of self.old.pairs) key → IsOk result }
    {
        // Its contract says that the keys are distinct, and that no pair is too many.
        let _count = self.texts.len();
        self.texts.put(key, Bytes::of(text))?;
        Ok(())
    }
}
