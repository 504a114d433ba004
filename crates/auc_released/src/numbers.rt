//! Sets of subscribers' numbers, in blocks of 64 consecutive numbers.

ghost use Rattle.std.specs.Prelude.{◌≡◌, ◌==◌, ◌&&◌, ◌||◌, ◌/◌, ℕ, [], Some, None, length, take, slice_get, OnOk, OnErr, IfSome, IfNone};
ghost use Rattle.std.specs.Map.{keys_of, lookup};
ghost use Rattle.auc_released.specs.Numbers.{has, is_same_block};
ghost use Rattle.auc_released.specs.Room.{HasRoom, KeepsRoom, IsRoomier};

use auc_memory::NoMemory;
use indexmap::IndexMap;
use std::alloc::Global;
use std::marker::Model;

/// A number of a subscriber.
#[derive(Clone, Copy)]
pub struct Number {
    /// The subscriber's place among the subscribers.
    pub sub: u32,
    /// The number.
    pub n: u64,
}

/// A set of subscribers' numbers. Contracts see the list of its words, each after its subscriber and the number of its
/// block.
#[derive(Drop)]
pub struct Numbers {
    words: IndexMap<(u32, u64), u64>,
    /// The index of the block that was added to last, which the next number is likely in.
    last: usize,
}

impl Model for Numbers {
    ghost use Rattle.auc_released.specs.Numbers.{Released};

    ghost Value = { Released };

    ghost view = { λ numbers. numbers.words.entries };
}

impl Numbers {
    /// No numbers. It takes no memory yet.
    pub fn new(alloc: Global) -> Numbers
        ensures { result ≡ [] }
    {
        Numbers {
            words: IndexMap::new(alloc),
            last: 0,
        }
    }

    /// Whether a subscriber's number is among them.
    pub fn has(&self, sub: u32, n: u64) -> bool
        ensures { result ≡ has self.now sub n }
    {
        match self.words.get(&(sub, n / 64)) {
            Some(&word) => (word >> (n % 64)) & 1 == 1,
            None => false,
        }
    }

    /// Adds a number. If memory runs out, the set is as it was.
    pub fn add(&mut self, number: Number) -> Result<(), NoMemory>
        ensures added { OnOk result ((s : ℕ) (m : ℕ)
            → has self.new s m ≡ (has self.old s m || (s == number.sub && m == number.n))) }
        ensures kept { OnErr result (self.new ≡ self.old) }
    {
        self.make_room(number)?;
        self.note(number);
        Ok(())
    }

    /// Makes room for a number, and adds none. If memory runs out, the set is as it was.
    pub fn make_room(&mut self, number: Number) -> Result<(), NoMemory>
        ensures roomier { IsRoomier self.old self.new }
        ensures there { OnOk result (HasRoom self.new number) }
        ensures kept { OnErr result (self.new ≡ self.old) }
    {
        match self.place_of(number) {
            Some(place) => self.last = place,
            None => {
                self.last = self.words.len();
                self.words.insert((number.sub, number.n / 64), 0)?;
            }
        }
        Ok(())
    }

    /// Adds a number for which there is room. It takes no memory.
    pub fn note(&mut self, number: Number)
        requires { HasRoom self.old number }
        ensures added { (s : ℕ) (m : ℕ)
            → has self.new s m ≡ (has self.old s m || (s == number.sub && m == number.n)) }
        ensures room { KeepsRoom self.old self.new }
    {
        if let Some(place) = self.place_of(number) {
            self.last = place;
            let (_, word) = self.words.pair_mut(place);
            *word |= 1 << (number.n % 64);
        }
    }

    /// How many blocks it has.
    pub fn blocks(&self) -> usize
        ensures { result ≡ length self.now }
    {
        self.words.len()
    }

    /// Drops all blocks but the first ones, such as those that room was made with.
    pub fn truncate(&mut self, blocks: usize)
        ensures { self.new ≡ take blocks self.old }
    {
        self.words.truncate(blocks);
    }

    /// The index of a number's block, if it is there. The block that was added to last is found without a look-up.
    fn place_of(&self, number: Number) -> Option<usize>
        ensures found { IfSome result (λ i.
            slice_get (keys_of self.now) i ≡ Some (number.sub, number.n / 64)) }
        ensures absent { IfNone result
            (lookup (is_same_block (number.sub, number.n / 64)) self.now ≡ None) }
    {
        let block = (number.sub, number.n / 64);
        match self.words.get_index(self.last) {
            Some((last, _)) if *last == block => Some(self.last),
            _ => self.words.get_index_of(&block),
        }
    }
}
