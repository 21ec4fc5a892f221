//! Numbers that are found by hashes.

ghost use Rattle.std.specs.Prelude.{◌≡◌, ◌<◌, ◌++◌, ◌∷◌, [], IfOk, length, false};
ghost use Rattle.dr_group.specs.Chains.{AreLinked, AreShort, bucket_of, depth_before, hashes_of, head_of, most_linked};
ghost use Rattle.dr_group.specs.Gathering.{Becomes};

use dr_memory::NoMemory;
use std::alloc::Global;

/// How many numbers a chain has at most.
pub const MOST_LINKED: u32 = 16;

/// The hash of a number, the next number of its bucket, and how many numbers the chain has from this one on.
#[derive(Clone, Copy, PartialEq, Eq)]
pub struct Link {
    pub hash: u64,
    pub next: u32,
    pub depth: u32,
}

/// The numbers from 0 on, each with a hash. The numbers of a bucket of hashes are a chain, the last one first: a head,
/// and the next of a number, is one more than a number, or 0 at the end. No chain has more than 16 numbers, whatever
/// the hashes.
#[derive(Drop)]
pub struct Index {
    pub(crate) heads: Vec<u32>,
    pub(crate) links: Vec<Link>,
    pub ghost linked: { AreLinked heads.items links.items },
    pub ghost short: { AreShort links.items },
}

impl Index {
    /// Of no numbers, and without room for any.
    pub fn new(alloc: Global) -> Index
        ensures { result.links.items ≡ [] }
    {
        Index {
            heads: Vec::new(alloc),
            links: Vec::new(alloc),
        }
    }

    /// Of no numbers, with buckets for twice as many as are told.
    ///
    /// Errors: want of memory alone.
    pub fn with_room(alloc: Global, count: usize) -> Result<Index, NoMemory>
        ensures links { IfOk result (λ x. x.links.items ≡ []) }
        ensures heads { IfOk result (λ x. 0 < length x.heads.items) }
    {
        let mut heads = Vec::new(alloc);
        heads.resize(count.saturating_mul(2).saturating_add(16), 0)?;
        Ok(Index {
            heads,
            links: Vec::with_capacity(alloc, count)?,
        })
    }

    /// The bucket of a hash.
    #[inline(always)]
    pub fn bucket(&self, hash: u64) -> usize
        requires { 0 < length (self.now).heads.items }
        ensures bucket { result ≡ bucket_of (self.now).heads.items hash }
        ensures within { result < length (self.now).heads.items }
    {
        (hash % self.heads.len() as u64) as usize
    }

    /// How many numbers the chain of a hash has.
    fn depth(&self, hash: u64) -> u32
        requires { 0 < length (self.now).heads.items }
        ensures { result ≡ depth_before (self.now).links.items
            (head_of (self.now).heads.items (bucket_of (self.now).heads.items hash)) }
    {
        let head = self.heads[self.bucket(hash)] as usize;
        if head == 0 {
            return 0;
        }
        self.links[head - 1].depth
    }

    /// Whether the chain of a hash has as many numbers as it may have.
    pub fn is_full(&self, hash: u64) -> bool
        requires { 0 < length (self.now).heads.items }
        ensures { result ≡ false → depth_before (self.now).links.items
            (head_of (self.now).heads.items (bucket_of (self.now).heads.items hash)) < most_linked }
    {
        self.depth(hash) >= MOST_LINKED
    }

    /// Appends the next number, with its hash, whose chain isn't full.
    ///
    /// Errors: want of memory, or of room for a number. Nothing has changed then.
    pub fn push(&mut self, hash: u64) -> Result<(), NoMemory>
        requires heads { 0 < length (self.old).heads.items }
        requires short { depth_before (self.old).links.items
            (head_of (self.old).heads.items (bucket_of (self.old).heads.items hash)) < most_linked }
        ensures hashes { Becomes (hashes_of (self.old).links.items) (hashes_of (self.new).links.items)
            (hashes_of (self.old).links.items ++ hash ∷ []) result }
        ensures heads { length (self.new).heads.items ≡ length (self.old).heads.items }
    {
        let Ok(head) = u32::try_from(self.links.len() + 1) else {
            return Err(NoMemory);
        };
        let depth = self.depth(hash) + 1;
        let bucket = self.bucket(hash);
        let next = self.heads[bucket];
        self.links.push(Link { hash, next, depth })?;
        self.heads[bucket] = head;
        Ok(())
    }
}
