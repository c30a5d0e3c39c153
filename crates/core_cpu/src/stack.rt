// Stacks of a fixed room.

ghost use Rattle.std.specs.Prelude.{◌≡◌, ◌+◌, ◌-◌, ◌<◌, ◌≤◌, [], ◌∷◌, ◌++◌, length, take, drop, reverse, replicate, slice_get, slice_index_or, slice_set, Some, IfOk};

use std::alloc::{AllocError, Global};
use std::marker::Model;

/// A stack, which contracts see as the list of its items, the topmost first, and the number of items for which it has
/// room. It grows downward, so that the items lie in this order.
#[derive(Debug, Drop)]
pub struct Stack<T> {
    items: Vec<T>,
    free: usize,
}

impl<T> Model for Stack<T> {
    ghost use Rattle.std.specs.Prelude.{List, ℕ, ◌≤◌, drop, vec_len};

    ghost Value = { List T × ℕ };

    ghost view = { λ s. (drop s.free s.items.items, s.free) };

    ghost invariant = { λ s. s.free ≤ vec_len s.items };
}

impl<T: Copy + Drop> Stack<T> {
    /// An empty stack with room for so many items. The only error is want of memory.
    pub fn with_room(alloc: Global, room: usize, filler: T) -> Result<Stack<T>, AllocError>
        ensures { IfOk result (λ stack. stack ≡ ([], room)) }
    {
        let mut items = Vec::new(alloc);
        items.resize(room, filler)?;
        Ok(Stack { items, free: room })
    }
}

impl<T> Stack<T> {
    /// A stack without room. It takes no memory.
    pub fn none(alloc: Global) -> Stack<T>
        ensures { result ≡ ([], 0) }
    {
        Stack {
            items: Vec::new(alloc),
            free: 0,
        }
    }
}

impl<T: Copy> Stack<T> {
    /// How many items it has.
    pub fn count(&self) -> usize
        ensures { result ≡ length self.now.0 }
    {
        self.items.len() - self.free
    }

    /// Puts an item on top.
    pub fn push(&mut self, item: T)
        requires { 1 ≤ self.old.1 }
        ensures { self.new ≡ (item ∷ self.old.0, self.old.1 - 1) }
    {
        self.free -= 1;
        self.items[self.free] = item;
    }

    /// Takes so many items off.
    pub fn cut(&mut self, count: usize)
        requires { count ≤ length self.old.0 }
        ensures { self.new ≡ (drop count self.old.0, self.old.1 + count) }
    {
        self.free += count;
    }

    /// An item, counted from the topmost one.
    pub fn get(&self, index: usize) -> T
        requires { index < length self.now.0 }
        ensures { slice_get self.now.0 index ≡ Some result }
    {
        self.items[self.free + index]
    }

    /// Changes an item, counted from the topmost one.
    pub fn set(&mut self, index: usize, item: T)
        requires { index < length self.old.0 }
        ensures { self.new ≡ (slice_set self.old.0 index item, self.old.1) }
    {
        self.items[self.free + index] = item;
    }

    /// Puts an item on top so many times.
    pub fn fill(&mut self, count: usize, item: T)
        requires { count ≤ self.old.1 }
        ensures { self.new ≡ (replicate count item ++ self.old.0, self.old.1 - count) }
    {
        for _index in 0..count {
            self.push(item);
        }
    }

    /// Puts items on top, the first one topmost.
    pub fn put(&mut self, items: &[T])
        requires { length items.now ≤ self.old.1 }
        ensures { self.new ≡ (items.now ++ self.old.0, self.old.1 - length items.now) }
    {
        for item in items.iter().rev() {
            self.push(*item);
        }
    }

    /// Moves so many items from the top of another stack over, one after the other.
    pub fn take_over(&mut self, from: &mut Stack<T>, count: usize)
        requires room { count ≤ self.old.1 }
        requires there { count ≤ length from.old.0 }
        ensures put { self.new ≡ (reverse (take count from.old.0) ++ self.old.0, self.old.1 - count) }
        ensures taken { from.new ≡ (drop count from.old.0, from.old.1 + count) }
    {
        for _index in 0..count {
            self.push(from.get(0));
            from.cut(1);
        }
    }

    /// So many items, from one on that is counted from the topmost one. The only error is want of memory.
    pub fn copy(&self, alloc: Global, first: usize, count: usize) -> Result<Vec<T>, AllocError>
        requires { first + count ≤ length self.now.0 }
        ensures { IfOk result (λ items. items.items ≡ take count (drop first self.now.0)) }
    {
        let start = self.free + first;
        Vec::from_slice(alloc, &self.items[start..start + count])
    }
}

impl Stack<i64> {
    /// Changes so many items, from one on that is counted from the topmost one.
    pub fn overwrite(&mut self, first: usize, count: usize, item: i64)
        requires { first + count ≤ length self.old.0 }
        ensures { self.new ≡ (take first self.old.0 ++ replicate count item ++ drop (first + count) self.old.0, self.old.1) }
    {
        let start = self.free + first;
        self.items[start..start + count].fill(item);
    }
}
