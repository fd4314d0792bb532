//! What an answer is kept under.

ghost use Rattle.std.specs.Prelude.{◌≡◌, ◌↔◌, IsTrue, IfOk};
ghost use Rattle.std.specs.Hash.{same_Alike};
ghost use Rattle.std.specs.Cmp.{decided, partial_equiv_from_equiv};
ghost use Rattle.gufi_base.specs.Paths.{path_eq};
ghost use Rattle.gufi_cache.specs.Keys.{key_of, same_key, same_principal, key_input};
ghost use Rattle.gufi_cache.specs.SameKeys.{same_key-Decides};

use crate::principal::SharedPrincipal;
use gufi_access::Principal;
use gufi_base::{Bytes, Memory, Path, path_cmp, same_bytes};
use std::alloc::Global;
use std::hash::{Hash, Hasher};

/// What an answer is kept under: the number of the publication, who asks, where the walk starts, and the ask itself.
///
/// Two keys are equal where all four are. Comparing takes O(1) where the numbers differ, else one look at each part.
#[derive(Drop)]
pub struct CacheKey {
    pub number: u64,
    pub who: SharedPrincipal,
    pub start: Path,
    pub ask: Bytes,
}

/// The key of an ask, in memory of its own but for the principal, which it shares. At most two allocations.
pub fn cache_key(
    alloc: Global,
    number: u64,
    who: &SharedPrincipal,
    start: &Path,
    ask: &[u8],
) -> Result<CacheKey, Memory>
    ensures { IfOk result (λ key. key ≡ key_of number who.now start.now ask.now) }
{
    let who = who.share()?;
    let start = start.copy(alloc)?;
    let ask = Bytes::from_slice(alloc, ask)?;
    Ok(CacheKey {
        number,
        who,
        start,
        ask,
    })
}

fn same_principal(a: &Principal, b: &Principal) -> bool
    ensures { result ≡ same_principal a.now b.now }
{
    a.uid == b.uid && a.groups.as_slice() == b.groups.as_slice()
}

#[tactic(auto, using(crate::proofs::Paths::path_eq_by_order))]
fn same_path(a: &Path, b: &Path) -> bool
    ensures { result ≡ path_eq a.now b.now }
{
    path_cmp(a, b).is_eq()
}

fn same_parts(a: &CacheKey, b: &CacheKey) -> bool
    ensures { result ≡ same_key a.now b.now }
{
    a.number == b.number
        && same_principal(a.who.get(), b.who.get())
        && same_path(&a.start, &b.start)
        && same_bytes(a.ask.as_slice(), b.ask.as_slice())
}

impl CacheKey {
    /// Whether all four parts are the same.
    pub fn is_same(&self, other: &CacheKey) -> bool
        ensures value { result ≡ same_key self.now other.now }
        ensures exact { IsTrue result ↔ (self.now ≡ other.now) }
    {
        same_parts(self, other)
    }
}

impl PartialEq for CacheKey {
    ghost eq = { same_key };

    ghost laws = { partial_equiv_from_equiv (decided same_key same_key-Decides) };

    fn eq(&self, other: &CacheKey) -> bool {
        self.is_same(other)
    }
}

impl Eq for CacheKey {
    ghost laws = { decided same_key same_key-Decides };
}

impl Hash for CacheKey {
    ghost hash_input = { key_input };

    ghost respects_eq = { (same_Alike key_input same_key-Decides).fed };

    fn hash<H: Hasher>(&self, state: &mut H) {
        state.write_u64(self.number);
        state.write_u32(self.who.get().uid);
        self.start.text().hash(state);
        self.ask.as_slice().hash(state);
    }
}
