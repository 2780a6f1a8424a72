ghost use Rattle.std.specs.Prelude.{◌≡◌, ◌<◌, ℕ, true, List, length, slice_index_or, IfOk, IfSome};

use gps_fixed::{Bytes, NoMemory};
use session_core::Item;
use std::alloc::Global;

/// How many texts are kept: one for each session that may be open.
const MOST_TEXTS: usize = 64;

/// The reply texts that were used last, each once, so that a text that comes again is shared. The latest is the first.
#[derive(Drop)]
pub(crate) struct ReplyTexts {
    items: Vec<Item>,
}

fn is_of(item: &Item, text: &[u8]) -> bool
    ensures { result ≡ true → item.now ≡ text.now }
{
    item.bytes() == text
}

fn place_of(items: &[Item], text: &[u8]) -> Option<usize>
    ensures within { IfSome result (λ k. k < length items.now) }
    ensures found { IfSome result (λ k. (free : List ℕ) → slice_index_or items.now k free ≡ text.now) }
{
    'items: for k in 0..items.len() {
        if is_of(&items[k], text) {
            return Some(k);
        }
    }
    None
}

/// An item that has no more room than its bytes take: a text that was written piece by piece may have twice as much.
fn exact_item(alloc: Global, text: &[u8]) -> Result<Item, NoMemory>
    ensures { IfOk result (λ item. item ≡ text.now) }
{
    let bytes = Bytes::from_slice(alloc, text)?;
    Item::of(alloc, bytes)
}

impl ReplyTexts {
    /// Keeps none yet. Takes no memory.
    pub(crate) fn new(alloc: Global) -> ReplyTexts {
        ReplyTexts {
            items: Vec::new(alloc),
        }
    }

    /// Takes out the item of this text, or makes one.
    fn found_or_made(&mut self, alloc: Global, text: &[u8]) -> Result<Item, NoMemory>
        ensures { IfOk result (λ item. item ≡ text.now) }
    {
        match place_of(self.items.as_slice(), text) {
            Some(k) => Ok(self.items.remove(k)),
            None => exact_item(alloc, text),
        }
    }

    /// Keeps an item as the first one, and drops the last one if there are too many.
    fn keep(&mut self, item: Item) -> Result<(), NoMemory> {
        if self.items.len() >= MOST_TEXTS {
            let _oldest = self.items.pop();
        }
        self.items.insert(0, item)?;
        Ok(())
    }

    /// An item of this text: a share of the one that is kept, or a new one that is kept and shared.
    pub(crate) fn item_of(&mut self, alloc: Global, text: &[u8]) -> Result<Item, NoMemory>
        ensures { IfOk result (λ item. item ≡ text.now) }
    {
        let item = self.found_or_made(alloc, text)?;
        let shared = item.share()?;
        self.keep(item)?;
        Ok(shared)
    }
}
