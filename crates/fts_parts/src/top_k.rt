// The least of many keys, few of which are held at a time.
ghost use Rattle.std.specs.Prelude.{◌≡◌, ◌<◌, ◌≤◌, ℕ, [], IfSome, OnErr, OnOk, All, length, take, true};
ghost use Rattle.fts_parts.specs.Keys.{first_keys, key_lt, put_key};

use std::alloc::{AllocError, Global};
use std::marker::Model;

/// What a hit is picked by: how it ranks by its number, then its stamp, then its document.
#[derive(Clone, Copy, PartialEq, Eq, PartialOrd, Ord)]
pub struct Key {
    pub rank: u64,
    pub stamp: u64,
    pub doc: u32,
}

/// The `k` least of the keys that it was given. Contracts see `k` and these.
///
/// Up to `2 * k` keys are held; once that many are held and one more comes, all but the least are dropped. From then on
/// the greatest of those is a bound: a key that isn't before it is dropped at once.
#[derive(Drop)]
pub struct TopK {
    k: usize,
    held: Vec<Key>,
    bound: Option<Key>,
}

impl Model for TopK {
    ghost use Rattle.fts_parts.specs.Keys.{TopKValue, IsTopK, first_keys};

    ghost Value = { TopKValue };

    ghost view = { λ l. record { k = l.k; keys = first_keys l.k l.held.items } };

    ghost invariant = { λ l. IsTopK l.k l.held.items l.bound };
}

impl TopK {
    /// An empty list of keys.
    pub fn new(alloc: Global, k: usize) -> TopK
        ensures { result ≡ record { k = k; keys = [] } }
    {
        TopK {
            k,
            held: Vec::new(alloc),
            bound: None,
        }
    }

    /// The rank above which no key is one of the least, if there is one by now.
    pub(crate) fn bound_rank(&self) -> Option<u64>
        ensures { IfSome result (λ most. (key : Key) → most < key.rank →
            take self.now.k (put_key self.now.keys key) ≡ self.now.keys) }
    {
        match self.bound {
            None => None,
            Some(bound) => Some(bound.rank),
        }
    }

    /// Whether no key of this rank or more is one of the least.
    pub(crate) fn is_beyond(&self, rank: u64) -> bool
        ensures { result ≡ true → (key : Key) → rank ≤ key.rank →
            take self.now.k (put_key self.now.keys key) ≡ self.now.keys }
    {
        match self.bound {
            None => false,
            Some(bound) => rank > bound.rank,
        }
    }

    /// Whether a key isn't one of the least.
    fn drops(&self, key: Key) -> bool
        ensures { result ≡ true → take self.now.k (put_key self.now.keys key) ≡ self.now.keys }
    {
        match self.bound {
            None => false,
            Some(bound) => key.cmp(&bound).is_ge(),
        }
    }

    /// Drops all that is held but the least.
    fn cut(&mut self)
        ensures { self.new ≡ self.old }
    {
        keep_least(self.k, &mut self.held);
        if self.held.len() == self.k {
            self.bound = self.held.last().copied();
        }
    }

    /// Takes one more key.
    pub(crate) fn offer(&mut self, key: Key) -> Result<(), AllocError>
        ensures ok { OnOk result (self.new
            ≡ record self.old { keys = take self.old.k (put_key self.old.keys key) }) }
        ensures err { OnErr result (self.new ≡ self.old) }
    {
        if self.drops(key) {
            return Ok(());
        }
        if self.held.len() >= self.k.saturating_mul(2) {
            self.cut();
        }
        self.push(key)
    }

    /// Holds one more key.
    fn push(&mut self, key: Key) -> Result<(), AllocError>
        ensures ok { OnOk result (self.new
            ≡ record self.old { keys = take self.old.k (put_key self.old.keys key) }) }
        ensures err { OnErr result (self.new ≡ self.old) }
    {
        self.held.push(key)?;
        Ok(())
    }

    /// The least keys, in their order.
    pub(crate) fn into_keys(self) -> Vec<Key>
        ensures { result.items ≡ self.keys }
    {
        let TopK {
            k,
            mut held,
            bound: _,
        } = self;
        keep_least(k, &mut held);
        held
    }
}

/// Keeps the least of keys, in their order.
fn keep_least(k: usize, keys: &mut Vec<Key>)
    ensures { keys.new.items ≡ first_keys k keys.old.items }
{
    keys.sort_unstable();
    keys.truncate(k);
}
