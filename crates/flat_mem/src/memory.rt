//! The memory itself: its regions, frames and blocks, loads and stores.
// The flat memory.

ghost use Rattle.std.specs.Prelude.{◌≡◌, ◌<◌, ◌^◌, ◌*◌, IfOk, IsTrue, Some, None, length, replicate, if◌then◌else◌};
ghost use Rattle.flat_mem.specs.Bytes.{number, stored, zeroed, moved, AreBytes, IsAccessSize};
ghost use Rattle.flat_mem.specs.Memory.{block_address, block_fits, block_made, depth_of, first_memory, fits, frame_area, in_flat, newest_addresses, popped, pushed, with_bytes};
ghost use Rattle.flat_mem.specs.Placement.{IsWithinLimits};
ghost use Rattle.flat_mem.specs.Tags.{tag_in, tag_written, row_moved, IsRowInside};

use crate::{Area, FramePlan, Plan, WordRow, areas, numbers, tags};
use std::alloc::{AllocError, Global};
use std::marker::Model;

// How many frames may be live at a time.
const FRAME_LIMIT: usize = 1024;

// Where the regions of the stack and the heap stand, and the limits of what may be charged to each.
#[derive(Clone, Copy)]
struct Bounds {
    stack_start: u64,
    stack_end: u64,
    stack_limit: u64,
    heap_end: u64,
    heap_limit: u64,
}

// A live frame: its bytes, what it was charged, and which of all addresses are those of its areas.
#[derive(Clone, Copy)]
struct Mark {
    start: u64,
    end: u64,
    charge: u64,
    first: usize,
    count: usize,
}

/// The memory of the flat machine. All memory is taken when it is made.
pub struct Flat {
    bytes: Vec<u8>,
    bounds: Bounds,
    // the live frames, the oldest first
    marks: Vec<Mark>,
    // the addresses of the areas of all live frames
    addresses: Vec<u64>,
    // where the next frame begins, and what the live frames were charged together
    top: u64,
    charge: u64,
    heap_top: u64,
    heap_charge: u64,
    // room for the tags that a move of tagged words reads before it writes
    spare_tags: Vec<bool>,
}

impl Drop for Flat {
    fn drop(self) {
        let Self {
            bytes: _,
            bounds: _,
            marks: _,
            addresses: _,
            top: _,
            charge: _,
            heap_top: _,
            heap_charge: _,
            spare_tags: _,
        } = self;
    }
}

impl Model for Flat {
    ghost use Rattle.std.specs.Prelude.{vec_capacity};
    ghost use Rattle.flat_mem.specs.Memory.{Memory};
    ghost use Rattle.flat_mem.specs.Marks.{memory_seen, IsWhole};

    ghost Value = { Memory };

    ghost view = { λ s. memory_seen s.bytes.items s.bounds s.marks.items s.addresses.items s.heap_top s.heap_charge };

    ghost invariant = { λ s. IsWhole s.bytes.items s.bounds s.marks.items s.addresses.items s.top s.charge s.heap_top s.heap_charge (vec_capacity s.marks) (vec_capacity s.addresses) (vec_capacity s.spare_tags) };
}

fn zeros(alloc: Global, count: usize) -> Result<Vec<u8>, AllocError>
    ensures { IfOk result (λ v. v.items ≡ replicate count 0) }
{
    vec![in alloc; 0; count]
}

impl Flat {
    /// The memory at the start: all bytes are zero but for the globals' first words, no frame is live, and there
    /// is no block. All memory is taken here.
    pub fn new(alloc: Global, plan: &Plan) -> Result<Flat, AllocError>
        requires { IsWithinLimits plan.now }
        ensures { IfOk result (λ m. m ≡ first_memory plan.now) }
    {
        let globals = &plan.globals;
        let globals = globals.0.as_slice();
        let globals_start = 8 * u64::from(plan.functions);
        let stack_start = globals_start + areas::sizes_of(globals);
        let stack_end = stack_start + 3 * plan.stack;
        let heap_end = stack_end + 3 * plan.heap;
        let mut bytes = zeros(alloc, heap_end as usize)?;
        areas::make_areas(&mut bytes, globals, globals_start);
        let marks = Vec::with_capacity(alloc, FRAME_LIMIT)?;
        let addresses = Vec::with_capacity(alloc, u64::div_ceil(3 * plan.stack, 8) as usize)?;
        let spare_tags = Vec::with_capacity(alloc, heap_end.div_ceil(8) as usize)?;
        Ok(Flat {
            bytes,
            bounds: Bounds {
                stack_start,
                stack_end,
                stack_limit: plan.stack,
                heap_end,
                heap_limit: plan.heap,
            },
            marks,
            addresses,
            top: stack_start,
            charge: 0,
            heap_top: stack_end.next_multiple_of(8),
            heap_charge: 0,
            spare_tags,
        })
    }

    /// Whether the `n` bytes from `at` on lie in the byte list. A range of no bytes does, wherever it stands.
    pub fn in_flat(&self, at: u64, n: u64) -> bool
        ensures { result ≡ in_flat self.now.bytes at n }
    {
        let length = self.bytes.len() as u64;
        n == 0 || (n <= length && at <= length - n)
    }

    /// The number of bytes in the list.
    pub fn size(&self) -> u64
        ensures value { result ≡ length self.now.bytes }
        ensures small { result < 2 ^ 32 }
        ensures bytes { AreBytes self.now.bytes }
    {
        self.bytes.len() as u64
    }

    /// The number whose `n` bytes stand at `at`, little-endian.
    pub fn load(&self, at: u64, n: u64) -> u64
        requires size { IsAccessSize n }
        requires inside { IsTrue (in_flat self.now.bytes at n) }
        ensures { result ≡ number n self.now.bytes at }
    {
        numbers::number_at(&self.bytes, at as usize, n)
    }

    /// Writes the `n` low bytes of `v` at `at`, little-endian.
    pub fn store(&mut self, at: u64, n: u64, v: u64)
        requires size { IsAccessSize n }
        requires inside { IsTrue (in_flat self.old.bytes at n) }
        ensures { self.new ≡ with_bytes self.old (stored n self.old.bytes at v) }
    {
        numbers::store_at(&mut self.bytes, at as usize, n, v);
    }

    /// Zeroes the `n` bytes from `at` on.
    pub fn zero(&mut self, at: u64, n: u64)
        requires { IsTrue (in_flat self.old.bytes at n) }
        ensures { self.new ≡ with_bytes self.old (zeroed n self.old.bytes at) }
    {
        if n > 0 {
            numbers::zero_at(&mut self.bytes, at as usize, n as usize);
        }
    }

    /// Copies the `n` bytes from `from` on to `to`, as if all were read before the first is written.
    pub fn move_bytes(&mut self, to: u64, from: u64, n: u64)
        requires target { IsTrue (in_flat self.old.bytes to n) }
        requires source { IsTrue (in_flat self.old.bytes from n) }
        ensures { self.new ≡ with_bytes self.old (moved n self.old.bytes to from) }
    {
        if n > 0 {
            numbers::move_within(&mut self.bytes, to as usize, from as usize, n as usize);
        }
    }

    /// The tag at the place `t`: bit `t % 8` of byte `t / 8`.
    pub fn tag(&self, t: u64) -> bool
        requires { t < 8 * length self.now.bytes }
        ensures { result ≡ tag_in self.now.bytes t }
    {
        tags::tag_at(&self.bytes, t)
    }

    /// Sets or clears the tag at the place `t`.
    pub fn set_tag(&mut self, t: u64, tag: bool)
        requires { t < 8 * length self.old.bytes }
        ensures { self.new ≡ with_bytes self.old (tag_written tag self.old.bytes t) }
    {
        tags::write_tag(&mut self.bytes, t, tag);
    }

    /// Copies `count` words with their base words and tags, as if all were read before the first is written; then
    /// words, base words and tags are written in this order.
    pub fn move_words(&mut self, to: WordRow, from: WordRow, count: u64)
        requires target { IsRowInside self.old.bytes to count }
        requires source { IsRowInside self.old.bytes from count }
        ensures { self.new ≡ with_bytes self.old (row_moved count self.old.bytes to from) }
    {
        tags::move_row(&mut self.bytes, &mut self.spare_tags, to, from, count);
    }

    /// Whether a frame with these areas may be pushed and charged `charge`: fewer than 1,024 frames are live, the
    /// charges of all stay within the limit, and the frame lies in the stack's region.
    #[inline(always)]
    pub fn fits(&self, plan: &FramePlan, charge: u64) -> bool
        ensures { result ≡ fits self.now plan.now charge }
    {
        self.marks.len() < FRAME_LIMIT
            && charge <= self.bounds.stack_limit - self.charge
            && plan.size <= self.bounds.stack_end - self.top
    }

    /// Pushes a frame with these areas, each zeroed and its first word written.
    #[inline(always)]
    pub fn push_frame(&mut self, plan: &FramePlan, charge: u64)
        requires { IsTrue (fits self.old plan.now charge) }
        ensures memory { self.new ≡ pushed self.old plan.now charge }
        ensures areas { length (newest_addresses self.new.frames) ≡ length plan.now }
    {
        let start = self.top;
        let first = self.addresses.len();
        let end = start + plan.size;
        plan.make(&mut self.bytes, start);
        areas::list_shifted(&mut self.addresses, &plan.offsets, start);
        self.marks.push_reserved(Mark {
            start,
            end,
            charge,
            first,
            count: plan.offsets.len(),
        });
        self.top = end;
        self.charge += charge;
    }

    /// Takes the newest frame away. Its bytes stay.
    #[inline(always)]
    pub fn pop_frame(&mut self)
        requires { 0 < length self.old.frames }
        ensures { self.new ≡ popped self.old }
    {
        let mark = self.marks.take_last();
        self.addresses.truncate(mark.first);
        self.top = mark.start;
        self.charge -= mark.charge;
    }

    /// The address of area `k` of the newest frame.
    pub fn frame_area(&self, k: usize) -> u64
        requires { k < length (newest_addresses self.now.frames) }
        ensures { result ≡ frame_area self.now k }
    {
        let mark = self.marks[self.marks.len() - 1];
        self.addresses[mark.first + k]
    }

    /// The number, from 1 and counted from the oldest, of the live frame whose bytes the address lies in or just
    /// after, or 0 where there is none.
    pub fn depth_of(&self, at: u64) -> u64
        ensures { result ≡ depth_of self.now at }
    {
        if at <= self.bounds.stack_start {
            return 0;
        }
        if at > self.top {
            return 0;
        }
        self.marks.partition_point(|mark| mark.start < at) as u64
    }

    /// Makes a block and gives its address: None exactly where the charges of all blocks or the heap's region
    /// would be passed.
    pub fn new_area(&mut self, area: Area, charge: u64) -> Option<u64>
        ensures address { result ≡ (if block_fits self.old area charge then Some
            (block_address self.old) else None) }
        ensures memory { self.new ≡ (if block_fits self.old area charge then block_made self.old
            area charge else self.old) }
    {
        let size = areas::size_within(area, self.bounds.heap_end.saturating_sub(self.heap_top))?;
        if charge > self.bounds.heap_limit - self.heap_charge {
            return None;
        }
        let start = self.heap_top;
        areas::make_area(&mut self.bytes, area, start);
        self.heap_top += size;
        self.heap_charge += charge;
        Some(start + 8)
    }
}
