//! Paths of the index (POSIX.1-2017 XBD 3.271).

ghost use Rattle.std.specs.Prelude.{◌≡◌, ◌≢◌, ◌↔◌, [], ◌∷◌, ◌++◌, length, drop, IsTrue, IfOk, IfSome, Ok, MatchOption, true, false};
ghost use Rattle.std.specs.List.{list_all};
ghost use Rattle.gufi_base.specs.Basics.{GivesUnless, split, is_empty as has_no_element};
ghost use Rattle.gufi_base.specs.Names.{is_name};
ghost use Rattle.gufi_base.specs.Paths.{Components, read_path, path_text, is_prefix, parent_path, base_name, stem, is_child_of};
ghost use Rattle.gufi_base.specs.PathTexts.{kept_text, names, IsText};
ghost use Rattle.gufi_base.specs.PathParts.{ArePartsOf};

use crate::Memory;
use crate::name::Name;
use crate::path_parts::{last_name_at, text_of_child, text_of_row, without_front};
use crate::path_reading::{closed, text_of_parts, without_first_slash};
use crate::path_ref::PathRef;
use crate::path_relations::{begins_with, child_name, names_beside};
use crate::plain::{are_plain, is_within_limits};
use std::alloc::{AllocError, Global};
use std::marker::Model;

/// A path of the index: its names from the root on.
///
/// One allocation: a slash, and then each name with a slash behind it.
#[derive(Drop)]
pub struct Path {
    text: Vec<u8>,
}

impl Model for Path {
    ghost use Rattle.std.specs.Prelude.{ℕ, List};
    ghost use Rattle.gufi_base.specs.PathTexts.{names, IsText};

    ghost Value = { List (List ℕ) };

    ghost view = { λ p. names p.text.items };

    ghost invariant = { λ p. IsText p.text.items };
}

/// Why bytes are no path.
#[derive(Clone, Copy, Debug, PartialEq, Eq)]
pub enum PathFault {
    DotDot,
    BadByte,
    LongName,
    Memory,
}

impl From<AllocError> for PathFault {
    ghost use Rattle.std.specs.Prelude.{◌≡◌};
    ghost use Rattle.gufi_base.specs.declared.path.PathFault.TheVariants.{Memory};

    ghost from_gives = { λ _ e. e ≡ Memory };

    fn from(_: AllocError) -> PathFault {
        PathFault::Memory
    }
}

impl Path {
    /// The path that the bytes spell. One allocation, and one more look at the bytes where they can be kept as they are.
    pub fn read(alloc: Global, bytes: &[u8]) -> Result<Path, PathFault>
        ensures { GivesUnless PathFault.Memory result (read_path bytes.now) }
    {
        let names = without_first_slash(bytes);
        if is_within_limits(bytes) && are_plain(names) {
            let text = closed(alloc, names)?;
            return Ok(Path { text });
        }
        let text = text_of_parts(alloc, bytes)?;
        Ok(Path { text })
    }

    /// The path whose names, with single slashes between them, the bytes are. One allocation.
    pub fn of_names(alloc: Global, bytes: &[u8]) -> Result<Path, AllocError>
        requires { IsTrue (list_all is_name (split 47 bytes.now)) }
        ensures { IfOk result (λ path. path ≡ split 47 bytes.now) }
    {
        let text = closed(alloc, bytes)?;
        Ok(Path { text })
    }

    /// The path followed by a name. One allocation.
    pub fn child(&self, alloc: Global, name: &[u8]) -> Result<Path, AllocError>
        requires { IsTrue (is_name name.now) }
        ensures { IfOk result (λ path. path ≡ self.now ++ name.now ∷ []) }
    {
        let text = text_of_child(alloc, self.text.as_slice(), name)?;
        Ok(Path { text })
    }

    /// The names in bytes that spell this path and these names, with single slashes between them. Those that another path below
    /// this one begins with are not looked at again.
    ///
    /// For speed alone: where it gives nothing, nothing is known of the bytes.
    pub fn names_beside<'a>(&self, known: &Path, bytes: &'a [u8]) -> Option<&'a [u8]>
        ensures { IfSome result (λ rest. IsTrue (list_all is_name (split 47 rest.now)) × (read_path bytes.now ≡ Ok (self.now ++ split 47 rest.now))) }
    {
        names_beside(bytes, self.text.as_slice(), known.text.as_slice())
    }

    /// The last name in bytes that spell a root's path, this path below it, and that name.
    ///
    /// For speed alone: where it gives nothing, nothing is known of the bytes.
    pub fn child_name<'a>(&self, root: &Path, bytes: &'a [u8]) -> Option<&'a [u8]>
        ensures { IfSome result (λ name. IsTrue (is_name name.now) × (read_path bytes.now ≡ Ok (root.now ++ (self.now ++ name.now ∷ [])))) }
    {
        child_name(bytes, root.text.as_slice(), self.text.as_slice())
    }

    /// The path of a kept text.
    pub(crate) fn of_text(text: Vec<u8>) -> Path
        requires { IsText text.items }
        ensures { result ≡ names text.items }
    {
        Path { text }
    }

    /// The path, borrowed.
    #[inline]
    pub fn as_path_ref(&self) -> PathRef<'_>
        ensures { result ≡ self.now }
    {
        PathRef::of_text(self.text.as_slice())
    }

    /// The path of no name.
    pub fn root(alloc: Global) -> Result<Path, AllocError>
        ensures { IfOk result (λ path. path ≡ []) }
    {
        let text = Vec::from_slice(alloc, b"/")?;
        Ok(Path { text })
    }

    /// The path of a row, from its stem and its base name. One allocation.
    pub fn of_parts(alloc: Global, stem: &[u8], base: &[u8]) -> Result<Path, AllocError>
        requires { (path : Components) × ArePartsOf stem.now base.now path }
        ensures { IfOk result (λ made. (path : Components) → ArePartsOf stem.now base.now path → made ≡ path) }
    {
        if stem.len() == 0 {
            return Path::root(alloc);
        }
        let text = text_of_row(alloc, stem, base)?;
        Ok(Path { text })
    }

    /// The same path in memory of its own. One allocation.
    pub fn copy(&self, alloc: Global) -> Result<Path, AllocError>
        ensures { IfOk result (λ path. path ≡ self.now) }
    {
        self.as_path_ref().copy(alloc)
    }

    /// The text that is kept: a slash, and then each name with a slash behind it.
    #[inline]
    pub fn text(&self) -> &[u8]
        ensures text { result.now ≡ kept_text self.now }
        ensures names { IsTrue (list_all is_name self.now) }
    {
        self.as_path_ref().text()
    }

    /// The printed text: `/` for the root, else a slash and the name for each name.
    #[inline]
    pub fn printed(&self) -> &[u8]
        ensures { result.now ≡ path_text self.now }
    {
        self.as_path_ref().printed()
    }

    /// Whether it is the root.
    #[inline]
    pub fn is_root(&self) -> bool
        ensures value { result ≡ has_no_element self.now }
        ensures exact { IsTrue result ↔ (self.now ≡ []) }
    {
        self.as_path_ref().is_root()
    }

    /// How many names it has.
    #[inline]
    pub fn depth(&self) -> usize
        ensures { result ≡ length self.now }
    {
        self.as_path_ref().depth()
    }

    /// Whether the front is the path or leads to it.
    pub fn starts_with(&self, front: &Path) -> bool
        ensures { result ≡ is_prefix front.now self.now }
    {
        begins_with(self.text.as_slice(), front.text.as_slice())
    }

    /// Whether it is the parent followed by one name.
    #[inline]
    pub fn is_child_of(&self, parent: &Path) -> bool
        ensures { result ≡ is_child_of parent.now self.now }
    {
        self.as_path_ref().is_child_of(&parent.as_path_ref())
    }

    /// What is left of it below a root that it begins with. Takes no memory.
    pub fn below(self, root: &Path) -> Option<Path>
        ensures { MatchOption result
            (is_prefix root.now self ≡ false)
            (λ rest. (is_prefix root.now self ≡ true) × (rest ≡ drop (length root.now) self)) }
    {
        if !begins_with(self.text.as_slice(), root.text.as_slice()) {
            return None;
        }
        let text = without_front(self.text, root.text.len() - 1);
        Some(Path { text })
    }

    /// Its last name, where it has one. Takes no memory.
    pub fn into_name(self) -> Option<Name>
        ensures { MatchOption result (self ≡ []) (λ name. (self ≢ []) × (name ≡ base_name self)) }
    {
        if self.text.len() <= 1 {
            return None;
        }
        let at = last_name_at(self.text.as_slice());
        let mut bytes = without_front(self.text, at);
        // A kept text ends with a slash, which is no part of its last name.
        let _slash = bytes.pop();
        Some(Name::of_bytes(bytes))
    }

    /// The kept text of the directory that it lies in; the root lies in none.
    #[inline]
    pub fn parent_text(&self) -> Option<&[u8]>
        ensures { MatchOption result (self.now ≡ []) (λ parent. (self.now ≢ []) × (parent.now ≡ kept_text (parent_path self.now))) }
    {
        self.as_path_ref().parent_text()
    }

    /// The last name; the root's is `/`.
    #[inline]
    pub fn base_name(&self) -> &[u8]
        ensures { result.now ≡ base_name self.now }
    {
        self.as_path_ref().base_name()
    }

    /// What stands before the base name in the printed text.
    #[inline]
    pub fn stem(&self) -> &[u8]
        ensures { result.now ≡ stem self.now }
    {
        self.stem_and_base().0
    }

    /// The stem and the base name, by one look for where they part.
    #[inline]
    pub fn stem_and_base(&self) -> (&[u8], &[u8])
        ensures stem { result.0.now ≡ stem self.now }
        ensures base { result.1.now ≡ base_name self.now }
    {
        self.as_path_ref().stem_and_base()
    }
}

/// The printed text of a path: `/` for the root, else a slash and the name for each name.
pub fn path_text(alloc: Global, path: &Path) -> Result<Vec<u8>, Memory>
    ensures { IfOk result (λ text. text.items ≡ path_text path.now) }
{
    let text = Vec::from_slice(alloc, path.printed())?;
    Ok(text)
}
