//! Resolving a start path (POSIX.1-2017 XBD 4.13, in part).

ghost use Rattle.std.specs.Prelude.{◌≡◌, ◌<◌, ◌≤◌, ◌^◌, ◌==◌, ◌∷◌, [], ◌++◌, ◌+◌, not, ℕ, List, length, drop, position, MatchResult, IsSome, IsTrue};
ghost use Rattle.std.specs.List.{list_all};
ghost use Rattle.gufi_base.specs.Paths.{Components};
ghost use Rattle.gufi_base.specs.PathTexts.{names, IsText};
ghost use Rattle.gufi_base.specs.Basics.{ascends};
ghost use Rattle.gufi_tree.specs.Tree.{HasTreeShape, entry_cmp};
ghost use Rattle.gufi_tree.specs.Places.{path_at};
ghost use Rattle.gufi_tree.specs.Resolve.{denied_at, missing_in, resolve_from, resolve};
ghost use Rattle.gufi_tree.specs.Reached.{IsReached};

use crate::borrowed::DirRef;
use crate::dirs::Dirs;
use crate::search::{find_dir, has_entry};
use crate::tree::{DirId, Tree};
use gufi_access::{Class, Principal, class_of, granted, lists};
use gufi_base::Path;

/// Where a start path leads.
#[derive(Clone, Copy, Debug, PartialEq, Eq)]
pub enum Resolved {
    Found(DirId),
    Denied { depth: u32, class: Class },
    NoSuch { depth: u32 },
    NotDir { depth: u32 },
}

impl Tree {
    /// Where a principal comes who goes along a path from the root.
    ///
    /// `O(log n)` comparisons a component.
    pub fn resolve(&self, who: &Principal, path: &Path) -> Resolved
        ensures { result ≡ resolve self.now who.now path.now }
    {
        resolve_text(self.kept(), who, path.text())
    }
}

fn slash_at(rest: &[u8]) -> Option<usize>
    ensures { result ≡ position (λ b. b == 47) rest.now }
{
    rest.iter().position(|b| *b == b'/')
}

/// The text up to the slash behind the name at an offset, and that name.
fn cut(text: &[u8], offset: usize) -> (&[u8], &[u8])
    requires within { offset ≤ length text.now }
    requires slash { IsSome (position (λ b. b == 47) (drop offset text.now)) }
    ensures { (front name rest : List ℕ) → text.now ≡ front ++ (name ++ 47 ∷ rest) → length front ≡ offset → IsTrue (list_all (λ b. not (b == 47)) name)
        → (result.0.now ≡ front ++ (name ++ 47 ∷ [])) × (result.1.now ≡ name) }
{
    let end = offset + slash_at(&text[offset..]).unwrap();
    (&text[..end + 1], &text[offset..end])
}

fn denied(dir: &DirRef<'_>, who: &Principal) -> Resolved
    requires { length dir.now.path < 2 ^ 32 }
    ensures { result ≡ denied_at who.now dir.now }
{
    Resolved::Denied {
        depth: dir.path().depth() as u32,
        class: class_of(who, &dir.guard()),
    }
}

/// A name that no directory has, in a directory.
fn missing(dir: &DirRef<'_>, name: &[u8]) -> Resolved
    requires depth { length dir.now.path + 1 < 2 ^ 32 }
    requires order { IsTrue (ascends entry_cmp dir.now.entries) }
    ensures { result ≡ missing_in dir.now name.now }
{
    let depth = dir.path().depth() as u32 + 1;
    if has_entry(dir, name) {
        Resolved::NotDir { depth }
    } else {
        Resolved::NoSuch { depth }
    }
}

/// At the end of a path, where the directory is.
fn arrive(dirs: &Dirs, who: &Principal, place: usize) -> Resolved
    requires shape { HasTreeShape dirs.now }
    requires few { length dirs.now < 2 ^ 32 }
    requires within { place < length dirs.now }
    ensures { result ≡ resolve_from dirs.now who.now (path_at dirs.now place) [] }
{
    let dir = dirs.at(place);
    if lists(who, &dir.guard()) {
        Resolved::Found(DirId(place as u32))
    } else {
        denied(&dir, who)
    }
}

/// Goes on by one name, to the directory whose path has the text.
fn step(
    dirs: &Dirs,
    who: &Principal,
    place: usize,
    next: &[u8],
    name: &[u8],
) -> Result<usize, Resolved>
    requires shape { HasTreeShape dirs.now }
    requires few { length dirs.now < 2 ^ 32 }
    requires within { place < length dirs.now }
    requires text { IsText next.now }
    requires name { names next.now ≡ path_at dirs.now place ++ name.now ∷ [] }
    ensures { MatchResult result
        (λ at. (at < length dirs.now) × (path_at dirs.now at ≡ names next.now)
        × ((rest : Components) → resolve_from dirs.now who.now (path_at dirs.now place) (name.now ∷ rest) ≡ resolve_from dirs.now who.now (names next.now) rest))
        (λ refused. (rest : Components) → refused ≡ resolve_from dirs.now who.now (path_at dirs.now place) (name.now ∷ rest)) }
{
    let dir = dirs.at(place);
    if !granted(who, &dir.guard(), 1) {
        return Err(denied(&dir, who));
    }
    match find_dir(dirs, next) {
        Some(at) => Ok(at),
        None => Err(missing(&dir, name)),
    }
}

fn resolve_text(dirs: &Dirs, who: &Principal, text: &[u8]) -> Resolved
    requires shape { HasTreeShape dirs.now }
    requires few { length dirs.now < 2 ^ 32 }
    requires text { IsText text.now }
    ensures { result ≡ resolve dirs.now who.now (names text.now) }
{
    let mut place = 0;
    let mut offset = 1;
    while offset < text.len() {
        let (next, name) = cut(text, offset);
        match step(dirs, who, place, next, name) {
            Err(refused) => return refused,
            Ok(found) => place = found,
        }
        offset = next.len();
    }
    arrive(dirs, who, place)
}
