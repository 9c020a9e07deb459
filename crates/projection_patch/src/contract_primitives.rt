// Numbers with a type of their own. After crates/prom-ui/src/contract_primitives.rs; `new` takes every number, 0 too. Each type is written out,
// with the names that it has there: a type parameter would change them, and no macro of the repository's own writes an impl.
ghost use Rattle.std.specs.Prelude.{◌≡◌};

// A revision of a projection.
#[derive(Clone, Copy, PartialEq, Eq)]
pub struct Revision(u64);

impl Revision {
    pub fn new(raw: u64) -> Revision
        ensures { result.0 ≡ raw }
    {
        Revision(raw)
    }

    pub fn raw(self) -> u64
        ensures { result ≡ self.0 }
    {
        self.0
    }
}

// An epoch of a stream.
#[derive(Clone, Copy, PartialEq, Eq)]
pub struct Epoch(u64);

impl Epoch {
    pub fn new(raw: u64) -> Epoch
        ensures { result.0 ≡ raw }
    {
        Epoch(raw)
    }

    pub fn raw(self) -> u64
        ensures { result ≡ self.0 }
    {
        self.0
    }
}

// A document.
#[derive(Clone, Copy, PartialEq, Eq)]
pub struct StaticDocumentId(u64);

impl StaticDocumentId {
    pub fn new(raw: u64) -> StaticDocumentId
        ensures { result.0 ≡ raw }
    {
        StaticDocumentId(raw)
    }

    pub fn raw(self) -> u64
        ensures { result ≡ self.0 }
    {
        self.0
    }
}

// A surface of a document.
#[derive(Clone, Copy, PartialEq, Eq)]
pub struct StaticSurfaceId(u64);

impl StaticSurfaceId {
    pub fn new(raw: u64) -> StaticSurfaceId
        ensures { result.0 ≡ raw }
    {
        StaticSurfaceId(raw)
    }

    pub fn raw(self) -> u64
        ensures { result ≡ self.0 }
    {
        self.0
    }
}

// A node, or a collection.
#[derive(Clone, Copy, PartialEq, Eq)]
pub struct StaticNodeId(u64);

impl StaticNodeId {
    pub fn new(raw: u64) -> StaticNodeId
        ensures { result.0 ≡ raw }
    {
        StaticNodeId(raw)
    }

    pub fn raw(self) -> u64
        ensures { result ≡ self.0 }
    {
        self.0
    }
}

// The key of an entry in its collection.
#[derive(Clone, Copy, PartialEq, Eq)]
pub struct CollectionKey(u64);

impl CollectionKey {
    pub fn new(raw: u64) -> CollectionKey
        ensures { result.0 ≡ raw }
    {
        CollectionKey(raw)
    }

    pub fn raw(self) -> u64
        ensures { result ≡ self.0 }
    {
        self.0
    }
}
