// A cache of the ids of names. What a hash finds is compared with the name before it is returned.
ghost use Rattle.std.specs.Prelude.{◌≡◌, IfSome, Some, slice_get, true};

use crate::names::Names;
use fts_base::release;
use std::alloc::Global;
use std::hash::{FoldHasher, Hasher};
use std::mem;

/// The number of slots that a name may be in.
const WINDOW: usize = 8;

/// The number in an empty slot.
const EMPTY: u32 = u32::MAX;

/// The number of a name, with its hash.
#[derive(Clone, Copy)]
struct CacheSlot {
    hash: u32,
    number: u32,
}

/// A lossy hash table from names to ids, with eight slots per hash. Chosen names can crowd each other out, so a name
/// that isn't found may still have an id.
#[derive(Drop)]
pub(crate) struct IdCache {
    /// The table; its size is a power of two, or zero.
    slots: Vec<CacheSlot>,
    /// The number of slots in use.
    taken: usize,
}

impl IdCache {
    pub(crate) fn new(alloc: Global) -> IdCache {
        IdCache {
            slots: Vec::new(alloc),
            taken: 0,
        }
    }

    /// Frees the slots.
    pub(crate) fn release(self) {
        release(self.slots);
    }

    /// The id of a name with this hash, if it is in one of its slots.
    pub(crate) fn find(&self, names: &Names, hash: u32, name: &[u8]) -> Option<usize>
        ensures { IfSome result (λ number. slice_get names.now number ≡ Some name.now) }
    {
        for step in 0..WINDOW {
            let slot = self.slots.get(self.place(hash, step))?;
            if slot.number == EMPTY {
                return None;
            }
            if slot.hash == hash && is_named(names, slot.number as usize, name) {
                return Some(slot.number as usize);
            }
        }
        None
    }

    /// Stores the id of a name in one of the slots of its hash, if one is free. If half of the slots are in use,
    /// the table grows first, unless no memory is left.
    pub(crate) fn put(&mut self, alloc: Global, hash: u32, number: usize) {
        let Ok(number) = u32::try_from(number) else {
            return;
        };
        if self.taken >= self.slots.len() / 2 {
            self.grow(alloc);
        }
        self.put_into(CacheSlot { hash, number });
    }

    /// Moves all entries to a table of twice the size.
    fn grow(&mut self, alloc: Global) {
        let size = self.slots.len().saturating_mul(2).max(64);
        let empty = CacheSlot {
            hash: 0,
            number: EMPTY,
        };
        let Ok(slots) = Vec::from_elem(alloc, empty, size) else {
            return;
        };
        let before = mem::replace(&mut self.slots, slots);
        self.taken = 0;
        for slot in &before {
            if slot.number != EMPTY {
                self.put_into(*slot);
            }
        }
        release(before);
    }

    /// Stores an entry in one of its slots, if one is free.
    fn put_into(&mut self, slot: CacheSlot) {
        for step in 0..WINDOW {
            let place = self.place(slot.hash, step);
            if place < self.slots.len() && self.slots[place].number == EMPTY {
                self.slots[place] = slot;
                self.taken = self.taken.saturating_add(1);
                return;
            }
        }
    }

    /// The index of the slot of a hash at a step of the search.
    fn place(&self, hash: u32, step: usize) -> usize {
        (hash as usize).wrapping_add(step) & self.slots.len().wrapping_sub(1)
    }
}

/// The hash of a name.
pub(crate) fn hash_of(name: &[u8]) -> u32 {
    let mut hasher = FoldHasher::default();
    hasher.write(name);
    (hasher.finish() >> 32) as u32
}

/// Whether a number is the id of a name.
fn is_named(names: &Names, number: usize, name: &[u8]) -> bool
    ensures { result ≡ true → slice_get names.now number ≡ Some name.now }
{
    number < names.len() && names.get(number) == name
}
