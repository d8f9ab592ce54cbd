//! How large documents may be.
ghost use Rattle.std.specs.Prelude.{◌≡◌, ◌↔◌, ◌^◌, IfSome, IsSome};
ghost use Rattle.ion_symtab.specs.Limits.{IsDepth, IsItem, IsReads, AreLimits};

/// How large a document may be. Ion 1.0 sets no such limits: an implementation names its own.
///
/// A value that passes the depth or the item limit is refused; a reader that passes the limit of
/// reads is a fault. Padding and blanks between top-level values have no limit.
#[derive(Clone, Copy, Debug, PartialEq, Eq)]
pub struct Limits {
    /// The greatest number of lists, s-expressions and structs that stand within one another, 1 to
    /// 128.
    pub depth: u32,
    /// The greatest number of octets of a top-level value or symbol table, from its first octet to
    /// its last, 1 to 2^30.
    pub item: u64,
    /// The greatest number of calls of one document's reader, that which answers the end included,
    /// 1 to 2^32.
    pub reads: u64,
    ghost deep: { IsDepth depth },
    ghost long: { IsItem item },
    ghost often: { IsReads reads },
}

impl Limits {
    /// These limits: levels, octets and reads. `None` exactly where `depth` isn't in 1 to 128,
    /// `item` isn't in 1 to 2^30 or `reads` isn't in 1 to 2^32.
    pub fn new(depth: u32, item: u64, reads: u64) -> Option<Limits>
        ensures some { IfSome result (λ limits.
            (limits.depth ≡ depth) × (limits.item ≡ item) × (limits.reads ≡ reads)) }
        ensures none { IsSome result ↔ AreLimits depth item reads }
    {
        if depth < 1 || depth > 128 || item < 1 || item > 1 << 30 || reads < 1 || reads > 1 << 32 {
            return None;
        }
        Some(Limits { depth, item, reads })
    }

    /// The limits where none are asked for: a depth of 64, items of 2^24 octets, and 2^32 reads.
    pub fn usual() -> Limits
        ensures { (result.depth ≡ 64) × (result.item ≡ 2 ^ 24) × (result.reads ≡ 2 ^ 32) }
    {
        Limits {
            depth: 64,
            item: 1 << 24,
            reads: 1 << 32,
        }
    }

    /// These limits with another depth. `None` exactly where it isn't in 1 to 128.
    pub fn with_depth(self, depth: u32) -> Option<Limits>
        ensures some { IfSome result (λ limits.
            (limits.depth ≡ depth) × (limits.item ≡ self.item) × (limits.reads ≡ self.reads)) }
        ensures none { IsSome result ↔ IsDepth depth }
    {
        Limits::new(depth, self.item, self.reads)
    }

    /// These limits with another greatest number of octets of an item. `None` exactly where it
    /// isn't in 1 to 2^30.
    pub fn with_item(self, item: u64) -> Option<Limits>
        ensures some { IfSome result (λ limits.
            (limits.depth ≡ self.depth) × (limits.item ≡ item) × (limits.reads ≡ self.reads)) }
        ensures none { IsSome result ↔ IsItem item }
    {
        Limits::new(self.depth, item, self.reads)
    }

    /// These limits with another greatest number of reads. `None` exactly where it isn't in 1 to
    /// 2^32.
    pub fn with_reads(self, reads: u64) -> Option<Limits>
        ensures some { IfSome result (λ limits.
            (limits.depth ≡ self.depth) × (limits.item ≡ self.item) × (limits.reads ≡ reads)) }
        ensures none { IsSome result ↔ IsReads reads }
    {
        Limits::new(self.depth, self.item, reads)
    }

    /// The greatest depth, in levels of lists, s-expressions and structs.
    pub fn depth(self) -> u32
        ensures { result ≡ self.depth }
    {
        self.depth
    }

    /// The greatest number of octets of a top-level value or symbol table.
    pub fn item(self) -> u64
        ensures { result ≡ self.item }
    {
        self.item
    }

    /// The greatest number of calls of one document's reader, that which answers the end included.
    pub fn reads(self) -> u64
        ensures { result ≡ self.reads }
    {
        self.reads
    }
}

impl Default for Limits {
    ghost use Rattle.std.specs.Prelude.{◌≡◌, ◌^◌};

    ghost is_default = { λ l. (l.depth ≡ 64) × (l.item ≡ 2 ^ 24) × (l.reads ≡ 2 ^ 32) };

    /// The usual limits.
    fn default() -> Limits {
        Limits::usual()
    }
}
