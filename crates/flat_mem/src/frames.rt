//! Frames laid out beforehand.
// Frames laid out before they are pushed.

ghost use Rattle.std.specs.Prelude.{◌≡◌, ◌+◌, ◌≤◌, ◌<◌, ◌^◌, IfOk, length};
ghost use Rattle.flat_mem.specs.Placement.{areas_size, areas_made};

use crate::{Area, areas, numbers};
use std::alloc::{AllocError, Global};
use std::marker::Model;

/// The areas of a frame, laid out: how long the frame is, and where each area stands in it. A contract sees it as the list of
/// the areas.
pub struct FramePlan {
    areas: Vec<Area>,
    // the areas' addresses, counted from the frame's start
    pub(crate) offsets: Vec<u64>,
    // the size of the frame; where it is 2^32 or more, some number that is too
    pub(crate) size: u64,
    // whether one of the areas is tagged
    tagged: bool,
}

impl Drop for FramePlan {
    fn drop(self) {
        let Self {
            areas: _,
            offsets: _,
            size: _,
            tagged: _,
        } = self;
    }
}

impl Model for FramePlan {
    ghost use Rattle.std.specs.Prelude.{List};
    ghost use Rattle.flat_mem.specs.declared.Area.{Area};
    ghost use Rattle.flat_mem.specs.Plans.{IsLaidOut};

    ghost Value = { List Area };

    ghost view = { λ s. s.areas.items };

    ghost invariant = { λ s. IsLaidOut s.areas.items s.offsets.items s.size s.tagged };
}

impl FramePlan {
    /// The plan of a frame with these areas, whether or not such a frame ever fits.
    pub fn of(alloc: Global, list: Vec<Area>) -> Result<FramePlan, AllocError>
        ensures { IfOk result (λ plan. plan ≡ list.items) }
    {
        if !areas::all_fit(&list, u64::from(u32::MAX)) {
            return Ok(FramePlan {
                areas: list,
                offsets: Vec::new(alloc),
                size: u64::MAX,
                tagged: true,
            });
        }
        let mut offsets = Vec::with_capacity(alloc, list.len())?;
        areas::list_addresses(&mut offsets, &list, 0);
        let size = areas::sizes_of(&list);
        let tagged = areas::has_tagged(&list);
        Ok(FramePlan {
            areas: list,
            offsets,
            size,
            tagged,
        })
    }

    // Makes the frame's areas from `start` on: all bytes become zero at once, then tagged areas get their first words.
    #[inline(always)]
    pub(crate) fn make(&self, bytes: &mut [u8], start: u64)
        requires room { start + areas_size self.now ≤ length bytes.old }
        requires small { length bytes.old < 2 ^ 32 }
        ensures { bytes.new ≡ areas_made self.now bytes.old start }
    {
        numbers::zero_at(bytes, start as usize, self.size as usize);
        if self.tagged {
            areas::write_first_words(bytes, &self.areas, start);
        }
    }
}
