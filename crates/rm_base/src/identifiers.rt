ghost use Rattle.std.specs.Prelude.{◌≡◌, ◌≤◌, ◌<◌, ◌^◌, SomeIff};

use crate::limits::MAX_PAGE_ID;
use std::marker::Model;

/// A database node. n1 is 0.
#[derive(Clone, Copy, Debug, PartialEq, Eq, PartialOrd, Ord, Hash, Default)]
pub struct NodeId(u8);

impl Model for NodeId {
    ghost use Rattle.std.specs.Prelude.{ℕ, ◌≤◌};

    ghost Value = { ℕ };

    ghost view = { λ id. id.0 };

    ghost invariant = { λ id. id.0 ≤ 15 };

    ghost inverse = { λ n. record { 0 = n } };
}

impl NodeId {
    /// None past 15.
    pub const fn new(n: u8) -> Option<NodeId>
        ensures { SomeIff result (n ≤ 15) n }
    {
        if n <= 15 { Some(NodeId(n)) } else { None }
    }

    pub fn number(&self) -> u8
        ensures value { result ≡ self.now }
        ensures bound { self.now ≤ 15 }
    {
        self.0
    }
}

/// A slab of remote pages, from 0.
#[derive(Clone, Copy, Debug, PartialEq, Eq, PartialOrd, Ord, Hash, Default)]
pub struct SlabId(u8);

impl Model for SlabId {
    ghost use Rattle.std.specs.Prelude.{ℕ, ◌≤◌};

    ghost Value = { ℕ };

    ghost view = { λ id. id.0 };

    ghost invariant = { λ id. id.0 ≤ 15 };

    ghost inverse = { λ n. record { 0 = n } };
}

impl SlabId {
    /// None past 15.
    pub const fn new(n: u8) -> Option<SlabId>
        ensures { SomeIff result (n ≤ 15) n }
    {
        if n <= 15 { Some(SlabId(n)) } else { None }
    }

    pub fn number(&self) -> u8
        ensures value { result ≡ self.now }
        ensures bound { self.now ≤ 15 }
    {
        self.0
    }
}

/// A session, in the order of declaration from 0.
#[derive(Clone, Copy, Debug, PartialEq, Eq, PartialOrd, Ord, Hash, Default)]
pub struct SessionId(u8);

impl Model for SessionId {
    ghost use Rattle.std.specs.Prelude.{ℕ, ◌≤◌};

    ghost Value = { ℕ };

    ghost view = { λ id. id.0 };

    ghost invariant = { λ id. id.0 ≤ 63 };

    ghost inverse = { λ n. record { 0 = n } };
}

impl SessionId {
    /// None past 63.
    pub const fn new(n: u8) -> Option<SessionId>
        ensures { SomeIff result (n ≤ 63) n }
    {
        if n <= 63 { Some(SessionId(n)) } else { None }
    }

    pub fn number(&self) -> u8
        ensures value { result ≡ self.now }
        ensures bound { self.now ≤ 63 }
    {
        self.0
    }
}

/// A page's number.
#[derive(Clone, Copy, Debug, PartialEq, Eq, PartialOrd, Ord, Hash, Default)]
pub struct PageId(u32);

impl Model for PageId {
    ghost use Rattle.std.specs.Prelude.{ℕ, ◌≤◌};
    ghost use Rattle.rm_base.specs.declared.limits.TheConstants.{MAX_PAGE_ID};

    ghost Value = { ℕ };

    ghost view = { λ id. id.0 };

    ghost invariant = { λ id. id.0 ≤ MAX_PAGE_ID };

    ghost inverse = { λ n. record { 0 = n } };
}

impl PageId {
    /// None past 32,767.
    pub const fn new(n: u32) -> Option<PageId>
        ensures { SomeIff result (n ≤ MAX_PAGE_ID) n }
    {
        if n <= MAX_PAGE_ID {
            Some(PageId(n))
        } else {
            None
        }
    }

    pub fn number(&self) -> u32
        ensures value { result ≡ self.now }
        ensures bound { self.now ≤ MAX_PAGE_ID }
    {
        self.0
    }
}

/// The number of a redo group, from 1. 0 stands before the first.
#[derive(Clone, Copy, Debug, PartialEq, Eq, PartialOrd, Ord, Hash, Default)]
pub struct Lsn(u64);

impl Model for Lsn {
    ghost use Rattle.std.specs.Prelude.{ℕ};

    ghost Value = { ℕ };

    ghost view = { λ id. id.0 };

    ghost inverse = { λ n. record { 0 = n } };
}

impl Lsn {
    pub const fn new(n: u64) -> Lsn
        ensures { result ≡ n }
    {
        Lsn(n)
    }

    pub fn number(&self) -> u64
        ensures value { result ≡ self.now }
        ensures bound { self.now < 2 ^ 64 }
    {
        self.0
    }
}

/// The number of a reign of one read-write node, from 1.
#[derive(Clone, Copy, Debug, PartialEq, Eq, PartialOrd, Ord, Hash, Default)]
pub struct Epoch(u64);

impl Model for Epoch {
    ghost use Rattle.std.specs.Prelude.{ℕ};

    ghost Value = { ℕ };

    ghost view = { λ id. id.0 };

    ghost inverse = { λ n. record { 0 = n } };
}

impl Epoch {
    pub const fn new(n: u64) -> Epoch
        ensures { result ≡ n }
    {
        Epoch(n)
    }

    pub fn number(&self) -> u64
        ensures value { result ≡ self.now }
        ensures bound { self.now < 2 ^ 64 }
    {
        self.0
    }
}

/// The number of a life of a node or slab, from 1.
#[derive(Clone, Copy, Debug, PartialEq, Eq, PartialOrd, Ord, Hash, Default)]
pub struct Incarnation(u64);

impl Model for Incarnation {
    ghost use Rattle.std.specs.Prelude.{ℕ};

    ghost Value = { ℕ };

    ghost view = { λ id. id.0 };

    ghost inverse = { λ n. record { 0 = n } };
}

impl Incarnation {
    pub const fn new(n: u64) -> Incarnation
        ensures { result ≡ n }
    {
        Incarnation(n)
    }

    pub fn number(&self) -> u64
        ensures value { result ≡ self.now }
        ensures bound { self.now < 2 ^ 64 }
    {
        self.0
    }
}

/// The number of a transaction that changes rows, from 1. 0 is none.
#[derive(Clone, Copy, Debug, PartialEq, Eq, PartialOrd, Ord, Hash, Default)]
pub struct TrxId(u64);

impl Model for TrxId {
    ghost use Rattle.std.specs.Prelude.{ℕ};

    ghost Value = { ℕ };

    ghost view = { λ id. id.0 };

    ghost inverse = { λ n. record { 0 = n } };
}

impl TrxId {
    pub const fn new(n: u64) -> TrxId
        ensures { result ≡ n }
    {
        TrxId(n)
    }

    pub fn number(&self) -> u64
        ensures value { result ≡ self.now }
        ensures bound { self.now < 2 ^ 64 }
    {
        self.0
    }
}

/// The place of a commit among all commits, from 1. 0 is not committed.
#[derive(Clone, Copy, Debug, PartialEq, Eq, PartialOrd, Ord, Hash, Default)]
pub struct Stamp(u64);

impl Model for Stamp {
    ghost use Rattle.std.specs.Prelude.{ℕ};

    ghost Value = { ℕ };

    ghost view = { λ id. id.0 };

    ghost inverse = { λ n. record { 0 = n } };
}

impl Stamp {
    pub const fn new(n: u64) -> Stamp
        ensures { result ≡ n }
    {
        Stamp(n)
    }

    pub fn number(&self) -> u64
        ensures value { result ≡ self.now }
        ensures bound { self.now < 2 ^ 64 }
    {
        self.0
    }
}

/// The number of a message that was sent, from 1.
#[derive(Clone, Copy, Debug, PartialEq, Eq, PartialOrd, Ord, Hash, Default)]
pub struct MsgNo(u64);

impl Model for MsgNo {
    ghost use Rattle.std.specs.Prelude.{ℕ};

    ghost Value = { ℕ };

    ghost view = { λ id. id.0 };

    ghost inverse = { λ n. record { 0 = n } };
}

impl MsgNo {
    pub const fn new(n: u64) -> MsgNo
        ensures { result ≡ n }
    {
        MsgNo(n)
    }

    pub fn number(&self) -> u64
        ensures value { result ≡ self.now }
        ensures bound { self.now < 2 ^ 64 }
    {
        self.0
    }
}

/// The number of a node's call to a server, from 1.
#[derive(Clone, Copy, Debug, PartialEq, Eq, PartialOrd, Ord, Hash, Default)]
pub struct CallNo(u64);

impl Model for CallNo {
    ghost use Rattle.std.specs.Prelude.{ℕ};

    ghost Value = { ℕ };

    ghost view = { λ id. id.0 };

    ghost inverse = { λ n. record { 0 = n } };
}

impl CallNo {
    pub const fn new(n: u64) -> CallNo
        ensures { result ≡ n }
    {
        CallNo(n)
    }

    pub fn number(&self) -> u64
        ensures value { result ≡ self.now }
        ensures bound { self.now < 2 ^ 64 }
    {
        self.0
    }
}
