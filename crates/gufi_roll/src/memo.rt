//! Which guards cover which, kept for those that are met again.

ghost use Rattle.std.specs.Prelude.{◌≡◌, IfSome, IsTrue};
ghost use Rattle.gufi_access.specs.Access.{rights};
ghost use Rattle.gufi_access.specs.Tried.{covers};
ghost use Rattle.gufi_roll.specs.Memo.{AreRight};

use gufi_access::{Guard, covers};
use gufi_base::same_bytes;
use std::alloc::Global;

/// How many guards are kept beside one.
const KEPT: usize = 8;

/// How many places a memo has, by the six highest bits of a key.
const PLACES: usize = 64;

/// Whether two guards say the same.
pub(crate) fn are_alike(a: &Guard<'_>, b: &Guard<'_>) -> bool
    ensures { IsTrue result → rights a.now ≡ rights b.now }
{
    a.uid == b.uid && a.gid == b.gid && a.mode == b.mode && same_bytes(a.acl, b.acl)
}

/// A guard that was compared, and whether the other covers it.
#[derive(Clone, Copy)]
pub(crate) struct Known<'a> {
    child: Guard<'a>,
    answer: bool,
}

/// A guard, and those that were compared with it last.
#[derive(Clone, Copy)]
struct Compared<'a> {
    parent: Guard<'a>,
    known: [Option<Known<'a>>; KEPT],
    next: usize,
    ghost right: { AreRight (rights parent) known },
}

impl<'a> Compared<'a> {
    /// Nothing is known yet.
    fn none(parent: &Guard<'a>) -> Compared<'a>
        ensures { rights result.parent ≡ rights parent.now }
    {
        Compared {
            parent: *parent,
            known: [None; KEPT],
            next: 0,
        }
    }

    /// Whether the guard covers another: what was found before, or what is found now.
    fn covers(&mut self, child: &Guard<'a>) -> bool
        ensures value { result ≡ covers (rights self.old.parent) (rights child.now) }
        ensures parent { rights self.new.parent ≡ rights self.old.parent }
    {
        if let Some(answer) = self.find(child) {
            return answer;
        }
        let answer = covers(&self.parent, child);
        self.keep(child, answer);
        answer
    }

    /// What is known of a guard.
    fn find(&self, child: &Guard<'_>) -> Option<bool>
        ensures { IfSome result (λ answer. answer ≡ covers (rights self.now.parent) (rights child.now)) }
    {
        for known in &self.known {
            let Some(known) = known else {
                return None;
            };
            if are_alike(&known.child, child) {
                return Some(known.answer);
            }
        }
        None
    }

    /// Keeps an answer in place of the oldest.
    fn keep(&mut self, child: &Guard<'a>, answer: bool)
        requires { answer ≡ covers (rights self.old.parent) (rights child.now) }
        ensures { rights self.new.parent ≡ rights self.old.parent }
    {
        let place = self.next % KEPT;
        self.known[place] = Some(Known {
            child: *child,
            answer,
        });
        self.next = place + 1;
    }
}

/// A number made of two. Each bit of both counts towards the highest bits.
fn mix(key: u64, word: u64) -> u64 {
    (key.rotate_left(5) ^ word).wrapping_mul(0x9e37_79b9_7f4a_7c15)
}

/// The place of a guard, by all that it says: its list is read in words of eight bytes.
fn place_of(guard: &Guard<'_>) -> usize {
    let ids = u64::from(guard.uid) << 32 | u64::from(guard.gid);
    let mut key = mix(ids, u64::from(guard.mode));
    let (words, rest) = guard.acl.as_chunks::<8>();
    for word in words {
        key = mix(key, u64::from_le_bytes(*word));
    }
    for byte in rest {
        key = mix(key, u64::from(*byte));
    }
    (key >> 58) as usize
}

/// A guard, and its place in a memo; without an access control list it has none.
#[derive(Clone, Copy)]
pub(crate) struct Above<'a> {
    pub(crate) guard: Guard<'a>,
    place: usize,
}

impl<'a> Above<'a> {
    pub(crate) fn of(guard: &Guard<'a>) -> Above<'a>
        ensures { rights result.guard ≡ rights guard.now }
    {
        let place = if guard.acl.is_empty() {
            PLACES
        } else {
            place_of(guard)
        };
        let guard = *guard;
        Above { guard, place }
    }
}

/// The guards with an access control list that others were compared with, each at its place.
///
/// Takes no memory before the first of them, then less than 32 kB.
#[derive(Drop)]
pub(crate) struct Memo<'a> {
    places: Vec<Option<Compared<'a>>>,
}

impl<'a> Memo<'a> {
    pub(crate) fn new(alloc: Global) -> Memo<'a> {
        Memo {
            places: Vec::new(alloc),
        }
    }

    /// Whether a guard covers another: what was found before, or what is found now. Without a list it is compared at once.
    pub(crate) fn covers(&mut self, above: &Above<'a>, child: &Guard<'a>) -> bool
        ensures { result ≡ covers (rights above.now.guard) (rights child.now) }
    {
        if above.place >= PLACES {
            return covers(&above.guard, child);
        }
        if let Some(Some(compared)) = self.places.get_mut(above.place) {
            if are_alike(&compared.parent, &above.guard) {
                return compared.covers(child);
            }
        }
        self.begin(above, child)
    }

    /// Compares two guards, and keeps the answer in place of the guard that had the place. Where there is no memory, nothing is kept.
    fn begin(&mut self, above: &Above<'a>, child: &Guard<'a>) -> bool
        ensures { result ≡ covers (rights above.now.guard) (rights child.now) }
    {
        let mut compared = Compared::none(&above.guard);
        let answer = compared.covers(child);
        if self.places.is_empty() {
            let _ = self.places.resize(PLACES, None);
        }
        if above.place < self.places.len() {
            self.places[above.place] = Some(compared);
        }
        answer
    }
}
