//! Want of memory, made by taking all memory that there is.
//!
//! This rests on Linux and on glibc's `malloc`: Linux lends address space that is never written
//! without memory behind it, so that a test can take all of it, and `malloc` gives no more than
//! what is left in its heap then. A request of 16 bytes more than there are is refused, but freed
//! blocks of a few sizes are kept apart by `malloc`, and what is left may lie in several places, so
//! a budget is a budget to within some of these.

use std::alloc::{AllocError, Global};

/// The most blocks in one list: Linux lends no more than 65,530 ranges.
const MOST_BLOCKS: usize = 60_000;

/// The size of the first block that is tried, in bytes.
const FIRST_SIZE: usize = 1 << 46;

/// The least size of the blocks that are held from the start.
const LARGE: usize = 1 << 18;

/// The size from which down each size that `malloc` tells apart is tried.
const SMALL: usize = 2_048;

/// The step between the sizes that `malloc` tells apart.
const STEP: usize = 16;

/// How many blocks of `CUSHION_SIZE` bytes are left to the test itself, to make its offices.
const CUSHIONS: usize = 64;

/// The size of a block that is small enough for `malloc` to take it from its heap.
const CUSHION_SIZE: usize = 1 << 16;

/// The most blocks that make up a budget.
const MOST_PIECES: usize = 64;

/// How much of the stack is used once before, in words of 8 bytes, which is half of what Linux allows by itself: where all address
/// space is taken, the stack can't grow any more.
const STACK_WORDS: usize = 524_288;

/// All address space of the process, but for what a test leaves free. What is held is never
/// written.
#[derive(Drop)]
pub struct Hoard {
    alloc: Global,
    large: Vec<Vec<u8>>,
    small: Vec<Vec<u8>>,
    room: Vec<Vec<u8>>,
    depth: usize,
}

/// Writes to each page of as much of the stack as calls may use later, from a place on that depends on a number. Returns a word of it.
/// It has to have a frame of its own: inlined, its words would stay in the caller's frame, and later calls would use the stack below them.
#[inline(never)]
fn use_stack(number: usize) -> usize {
    let mut words = [0usize; STACK_WORDS];
    for at in (0..STACK_WORDS).step_by(512) {
        words[(number % STACK_WORDS + at) % STACK_WORDS] = at;
    }
    words[number % STACK_WORDS]
}

/// Takes blocks of a size until none is left, then smaller ones, down to a least size. Returns
/// whether the list had room for all.
fn take_all(alloc: Global, blocks: &mut Vec<Vec<u8>>, first: usize, least: usize) -> bool {
    let mut size = first;
    for _ in 0..MOST_BLOCKS {
        let block: Result<Vec<u8>, AllocError> = Vec::with_capacity(alloc, size);
        match block {
            Ok(block) => {
                let _ = blocks.push(block);
            }
            Err(_) if size <= least => return true,
            Err(_) if size > SMALL => size /= 2,
            Err(_) => size = size.saturating_sub(STEP),
        }
    }
    false
}

/// Takes blocks of this many bytes together, as large as they can be had. Fails also where what is
/// free lies in too many places.
fn set_aside(alloc: Global, blocks: &mut Vec<Vec<u8>>, bytes: usize) -> Result<(), AllocError> {
    let mut left = bytes;
    let mut size = bytes;
    for _ in 0..MOST_PIECES {
        if left == 0 {
            return Ok(());
        }
        size = size.min(left).max(SMALL);
        let block: Result<Vec<u8>, AllocError> = Vec::with_capacity(alloc, size);
        match block {
            Ok(block) => {
                blocks.push(block)?;
                left = left.saturating_sub(size);
            }
            Err(_) if size <= SMALL => return Err(AllocError),
            Err(_) => size /= 2,
        }
    }
    Err(AllocError)
}

impl Hoard {
    /// Takes all address space but about 4,000,000 bytes, with which the test goes on. Fails also
    /// where there are more blocks than the list takes.
    pub fn take(alloc: Global) -> Result<Hoard, AllocError> {
        let mut hoard = Hoard {
            alloc,
            large: Vec::with_capacity(alloc, MOST_BLOCKS)?,
            small: Vec::with_capacity(alloc, MOST_BLOCKS)?,
            room: Vec::with_capacity(alloc, MOST_PIECES)?,
            depth: 0,
        };
        hoard.depth = use_stack(hoard.large.capacity());
        for _ in 0..CUSHIONS {
            hoard.small.push(Vec::with_capacity(alloc, CUSHION_SIZE)?)?;
        }
        if !take_all(alloc, &mut hoard.large, FIRST_SIZE, LARGE) {
            return Err(AllocError);
        }
        hoard.small.clear();
        Ok(hoard)
    }

    /// Takes what is left, but for this many bytes. Fails also where there are more blocks than the
    /// list takes.
    pub fn leave(&mut self, budget: usize) -> Result<(), AllocError> {
        set_aside(self.alloc, &mut self.room, budget.saturating_add(SMALL))?;
        if !take_all(self.alloc, &mut self.small, LARGE, STEP) {
            return Err(AllocError);
        }
        self.room.clear();
        let front: Vec<u8> = Vec::with_capacity(self.alloc, SMALL)?;
        self.small.push(front)?;
        Ok(())
    }

    /// Gives back what `leave` took.
    pub fn give_back(&mut self) {
        self.small.clear();
    }

    /// Returns how many blocks of address space are held from the start, where the stack was used before.
    pub fn len(&self) -> usize {
        self.large.len().saturating_add(self.depth)
    }
}
