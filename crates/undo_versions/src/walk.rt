//! A walk along the versions of a row.
ghost use Rattle.std.specs.Prelude.{◌≡◌, IsSome, OnOk, OnErr};
ghost use Rattle.std.specs.Option.{option_copied};
ghost use Rattle.undo_versions.specs.Walking as spec;

use crate::reading::older;
use page_image::Page;
use page_view::LeafItem;
use rm_base::{PageId, TrxId, UndoPtr, WantOfMemory};
use std::alloc::Global;
use std::marker::Model;

/// What a walk has, or asks for next.
#[derive(Clone, Copy, Debug, PartialEq, Eq)]
pub enum ChainWant {
    /// The page of the next older version.
    Need(PageId),
    /// A version is there, of this transaction.
    Version(TrxId),
    /// The oldest version was passed.
    End,
}

/// A walk along the versions of a row, the newest first. Contracts see its present version and where
/// the older one stands.
#[derive(Drop)]
pub struct ChainWalk {
    alloc: Global,
    version: Option<LeafItem>,
    next: UndoPtr,
}

impl Model for ChainWalk {
    ghost use Rattle.undo_versions.specs.Walking.{Walk};

    ghost Value = { Walk };

    ghost view = { λ walk. record { version = walk.version; next = walk.next } };
}

/// Where no undo item stands.
const NONE: UndoPtr = UndoPtr { page: 0, slot: 0 };

/// What is wanted where the older version stands there.
fn want_at(at: UndoPtr) -> ChainWant
    ensures { result ≡ spec.want_at at }
{
    if at.page == 0 {
        return ChainWant::End;
    }
    match PageId::new(at.page) {
        Some(page) => ChainWant::Need(page),
        None => ChainWant::End,
    }
}

impl ChainWalk {
    /// The walk at the newest version. It keeps the allocator and takes no memory yet.
    pub fn new(alloc: Global, newest: LeafItem) -> ChainWalk
        ensures { result ≡ spec.at_version newest }
    {
        let next = newest.older;
        ChainWalk {
            alloc,
            version: Some(newest),
            next,
        }
    }

    pub fn next(&self) -> ChainWant
        ensures { result ≡ spec.want_of self.now }
    {
        match &self.version {
            None => want_at(self.next),
            Some(item) => ChainWant::Version(item.trx),
        }
    }

    /// The present version. None exactly where a page is wanted, or at the end.
    pub fn item(&self) -> Option<&LeafItem>
        ensures { option_copied result ≡ self.now.version }
    {
        self.version.as_ref()
    }

    /// Passes the present version.
    pub fn pass(&mut self)
        requires { IsSome self.old.version }
        ensures { self.new ≡ spec.passed self.old }
    {
        self.version = None;
    }

    /// Takes the page that is wanted, and goes to the version that stands there, or to the end where
    /// there is none.
    pub fn give(&mut self, page: &Page) -> Result<(), WantOfMemory>
        requires { spec.want_of self.old ≡ ChainWant.Need page.now.page }
        ensures ok { OnOk result (self.new ≡ spec.given self.old page.now) }
        ensures err { OnErr result (self.new ≡ self.old) }
    {
        let found = older(self.alloc, page, self.next)?;
        self.go_to(found.and_then(|undo| undo.old));
        Ok(())
    }

    /// Goes to a version, or to the end.
    fn go_to(&mut self, version: Option<LeafItem>)
        ensures { self.new ≡ spec.at_old version }
    {
        self.next = match &version {
            None => NONE,
            Some(item) => item.older,
        };
        self.version = version;
    }
}
