//! Borrowed records.

ghost use Rattle.std.specs.Prelude.{◌≡◌, IfOk};

use crate::list::Bytes;
use crate::record::{Meta, Rec};
use std::alloc::{AllocError, Global};
use std::marker::Model;

/// The record of a file whose parts stand elsewhere.
#[derive(Drop)]
pub struct RecRef<'a> {
    meta: &'a Meta,
    link: &'a [u8],
    xattrs: &'a [u8],
    acl: &'a [u8],
}

impl<'a> Model for RecRef<'a> {
    ghost use Rattle.gufi_base.specs.declared.record.Rec.{Rec};

    ghost Value = { Rec };

    ghost view = { λ r. record { link = r.link.now; xattrs = r.xattrs.now; acl = r.acl.now; meta = r.meta.now } };
}

impl<'a> RecRef<'a> {
    /// The record of these parts.
    #[inline]
    pub fn of(meta: &'a Meta, link: &'a [u8], xattrs: &'a [u8], acl: &'a [u8]) -> RecRef<'a>
        ensures { result ≡ record { link = link.now; xattrs = xattrs.now; acl = acl.now; meta = meta.now } }
    {
        RecRef {
            meta,
            link,
            xattrs,
            acl,
        }
    }

    #[inline]
    pub fn meta(&self) -> &'a Meta
        ensures { result.now ≡ self.now.meta }
    {
        self.meta
    }

    /// The target of a link.
    #[inline]
    pub fn link(&self) -> &'a [u8]
        ensures { result.now ≡ self.now.link }
    {
        self.link
    }

    /// The names of its extended attributes, joined by single commas.
    #[inline]
    pub fn xattrs(&self) -> &'a [u8]
        ensures { result.now ≡ self.now.xattrs }
    {
        self.xattrs
    }

    /// Its access control list: entries of six bytes, or nothing.
    #[inline]
    pub fn acl(&self) -> &'a [u8]
        ensures { result.now ≡ self.now.acl }
    {
        self.acl
    }

    /// The same record in memory of its own. Three allocations at most.
    pub fn copy(&self, alloc: Global) -> Result<Rec, AllocError>
        ensures { IfOk result (λ copy. copy ≡ self.now) }
    {
        let link = Bytes::from_slice(alloc, self.link)?;
        let xattrs = Bytes::from_slice(alloc, self.xattrs)?;
        let acl = Bytes::from_slice(alloc, self.acl)?;
        let meta = *self.meta;
        Ok(Rec {
            link,
            xattrs,
            acl,
            meta,
        })
    }
}
