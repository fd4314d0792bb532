//! Borrowed paths.

ghost use Rattle.std.specs.Prelude.{◌≡◌, ◌≢◌, ◌↔◌, [], length, IsTrue, IfOk, MatchOption};
ghost use Rattle.std.specs.List.{list_all};
ghost use Rattle.gufi_base.specs.Basics.{is_empty as has_no_element};
ghost use Rattle.gufi_base.specs.Names.{is_name};
ghost use Rattle.gufi_base.specs.Paths.{path_text, parent_path, base_name, stem, is_child_of};
ghost use Rattle.gufi_base.specs.PathTexts.{kept_text, names, IsText};

use crate::order::same_bytes;
use crate::path::Path;
use crate::path_parts::{count_slashes, last_name_at};
use std::alloc::{AllocError, Global};
use std::marker::Model;

/// A path of the index whose text stands elsewhere: a slash, and then each name with a slash behind it.
#[derive(Drop)]
pub struct PathRef<'a> {
    text: &'a [u8],
}

impl<'a> Model for PathRef<'a> {
    ghost use Rattle.std.specs.Prelude.{ℕ, List};
    ghost use Rattle.gufi_base.specs.PathTexts.{names, IsText};

    ghost Value = { List (List ℕ) };

    ghost view = { λ p. names p.text.now };

    ghost invariant = { λ p. IsText p.text.now };
}

impl<'a> PathRef<'a> {
    /// The path of a kept text.
    #[inline]
    pub fn of_text(text: &'a [u8]) -> PathRef<'a>
        requires { IsText text.now }
        ensures { result ≡ names text.now }
    {
        PathRef { text }
    }

    /// The text that is kept: a slash, and then each name with a slash behind it.
    #[inline]
    pub fn text(&self) -> &'a [u8]
        ensures text { result.now ≡ kept_text self.now }
        ensures names { IsTrue (list_all is_name self.now) }
    {
        self.text
    }

    /// The same path in memory of its own. One allocation.
    pub fn copy(&self, alloc: Global) -> Result<Path, AllocError>
        ensures { IfOk result (λ path. path ≡ self.now) }
    {
        Ok(Path::of_text(Vec::from_slice(alloc, self.text)?))
    }

    /// The printed text: `/` for the root, else a slash and the name for each name.
    #[inline]
    pub fn printed(&self) -> &'a [u8]
        ensures { result.now ≡ path_text self.now }
    {
        if self.text.len() <= 1 {
            return self.text;
        }
        &self.text[..self.text.len() - 1]
    }

    /// Whether it is the root.
    #[inline]
    pub fn is_root(&self) -> bool
        ensures value { result ≡ has_no_element self.now }
        ensures exact { IsTrue result ↔ (self.now ≡ []) }
    {
        self.text.len() <= 1
    }

    /// How many names it has.
    pub fn depth(&self) -> usize
        ensures { result ≡ length self.now }
    {
        count_slashes(self.text) - 1
    }

    /// Whether it is the parent followed by one name.
    pub fn is_child_of(&self, parent: &PathRef<'_>) -> bool
        ensures { result ≡ is_child_of parent.now self.now }
    {
        // A path's own text tells that its names are names.
        let _text = self.text();
        match self.parent_text() {
            None => false,
            Some(above) => same_bytes(above, parent.text()),
        }
    }

    /// The kept text of the directory that it lies in; the root lies in none.
    pub fn parent_text(&self) -> Option<&'a [u8]>
        ensures { MatchOption result (self.now ≡ []) (λ parent. (self.now ≢ []) × (parent.now ≡ kept_text (parent_path self.now))) }
    {
        if self.text.len() <= 1 {
            return None;
        }
        Some(&self.text[..last_name_at(self.text)])
    }

    /// The last name; the root's is `/`.
    #[inline]
    pub fn base_name(&self) -> &'a [u8]
        ensures { result.now ≡ base_name self.now }
    {
        self.stem_and_base().1
    }

    /// The stem and the base name, by one look for where they part.
    pub fn stem_and_base(&self) -> (&'a [u8], &'a [u8])
        ensures stem { result.0.now ≡ stem self.now }
        ensures base { result.1.now ≡ base_name self.now }
    {
        if self.text.len() <= 1 {
            return (&[], self.text);
        }
        let at = last_name_at(self.text);
        (&self.text[..at], &self.text[at..self.text.len() - 1])
    }
}
