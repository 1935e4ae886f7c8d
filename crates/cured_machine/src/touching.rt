//! Instructions that read and write the byte list.
ghost use Rattle.std.specs.Prelude.{false, IsTrue, length, ℕ, ◌*◌, ◌+◌, ◌<◌, ◌^◌, ◌≡◌, ◌≤◌, ◌⊎◌};
ghost use Rattle.flat_mem.specs.Memory.{in_flat, with_bytes};
ghost use Rattle.flat_mem.specs.Bytes.{bytes_at, written};
ghost use Rattle.wild_tags.specs.Inside.{has_length};
ghost use Rattle.cured_code.specs.FlatState.{words_at, words_stored};
ghost use Rattle.cured_code.specs.declared.instr.Instr.TheVariants as instr;
ghost use Rattle.cured_code.specs.Groups.{Bytes, group};
ghost use Rattle.cured_code.specs.Ranges.{IsRowSize};
ghost use Rattle.cured_machine.specs.Operations.{instr_of, is_laid, own_group};
ghost use Rattle.cured_machine.specs.Rows.{IsNamed, IsMemoryRow};

use crate::operation::Operation;
use crate::row::Row;
use cured_code::Instr;
use flat_mem::Flat;

/// Whether the word before an address, an area's length, lies in the list.
#[inline(always)]
fn has_length(flat: &Flat, b: u64) -> bool
    ensures { result ≡ has_length flat.now.bytes b }
{
    b >= 8 && flat.in_flat(b - 8, 8)
}

/// Two or three words at an address come into the slots from `v` on.
#[inline(always)]
#[tactic(auto, unfolding(flat_mem::specs::Bytes::written))]
fn load_row(flat: &Flat, at: u64, frame: &mut [u64], v: usize, k: u32)
    requires size { IsRowSize k }
    requires slots { v + k ≤ length frame.old }
    requires inside { IsTrue (in_flat flat.now.bytes at (8 * k)) }
    requires small { length flat.now.bytes < 2 ^ 32 }
    ensures { frame.new ≡ written (words_at k flat.now.bytes at) frame.old v }
{
    if k == 2 {
        frame[v] = flat.load(at, 8);
        frame[v + 1] = flat.load(at + 8, 8);
    } else {
        frame[v] = flat.load(at, 8);
        frame[v + 1] = flat.load(at + 8, 8);
        frame[v + 2] = flat.load(at + 8 + 8, 8);
    }
}

/// Two or three words from the slots from `v` on are written at an address.
#[inline(always)]
#[tactic(auto, unfolding(flat_mem::specs::Bytes::bytes_at))]
fn store_row(flat: &mut Flat, at: u64, frame: &[u64], v: usize, k: u32)
    requires size { IsRowSize k }
    requires slots { v + k ≤ length frame.now }
    requires inside { IsTrue (in_flat flat.old.bytes at (8 * k)) }
    requires small { length flat.old.bytes < 2 ^ 32 }
    ensures { flat.new ≡ with_bytes flat.old
        (words_stored (bytes_at k frame.now v) flat.old.bytes at) }
{
    if k == 2 {
        flat.store(at, 8, frame[v]);
        flat.store(at + 8, 8, frame[v + 1]);
    } else {
        flat.store(at, 8, frame[v]);
        flat.store(at + 8, 8, frame[v + 1]);
        flat.store(at + 8 + 8, 8, frame[v + 2]);
    }
}

/// The number of `n` bytes at an address comes into the slot, where they lie in the list.
#[inline(always)]
fn load(n: u64, v: u32, a: u32, flat: &Flat, frame: &mut [u64]) -> Row
    requires named { (areas : ℕ) × IsNamed (instr.Ld n v a) (length frame.old) areas }
    ensures { IsMemoryRow (group (instr.Ld n v a) ≡ Bytes) (instr.Ld n v a) flat.now flat.now
        frame.old frame.new result }
{
    let at = frame[a as usize];
    if !flat.in_flat(at, n) {
        return Row::Trapped;
    }
    frame[v as usize] = flat.load(at, n);
    Row::Done
}

/// The `n` low bytes of the slot are written at an address, where they lie in the list.
#[inline(always)]
fn store(n: u64, a: u32, v: u32, flat: &mut Flat, frame: &[u64]) -> Row
    requires named { (areas : ℕ) × IsNamed (instr.St n a v) (length frame.now) areas }
    ensures { IsMemoryRow (group (instr.St n a v) ≡ Bytes) (instr.St n a v) flat.old flat.new
        frame.now frame.now result }
{
    let at = frame[a as usize];
    if !flat.in_flat(at, n) {
        return Row::Trapped;
    }
    flat.store(at, n, frame[v as usize]);
    Row::Done
}

/// Loads and stores.
#[inline(always)]
pub(crate) fn act_bytes(operation: &Operation, flat: &mut Flat, frame: &mut [u64]) -> Row
    requires named { (areas : ℕ) × IsNamed (instr_of operation.now) (length frame.old) areas }
    requires small { length flat.old.bytes < 2 ^ 32 }
    ensures { IsMemoryRow (own_group operation.now ≡ Bytes)
        (instr_of operation.now) flat.old flat.new frame.old frame.new result }
{
    match *operation {
        Operation::Load1(v, a) => load(1, v, a, flat, frame),
        Operation::Load2(v, a) => load(2, v, a, flat, frame),
        Operation::Load4(v, a) => load(4, v, a, flat, frame),
        Operation::Load8(v, a) => load(8, v, a, flat, frame),
        Operation::Store1(a, v) => store(1, a, v, flat, frame),
        Operation::Store2(a, v) => store(2, a, v, flat, frame),
        Operation::Store4(a, v) => store(4, a, v, flat, frame),
        Operation::Store8(a, v) => store(8, a, v, flat, frame),
        Operation::Ldw(k, v, a) => {
            let at = frame[a as usize];
            if !flat.in_flat(at, 8 * u64::from(k)) {
                return Row::Trapped;
            }
            load_row(flat, at, frame, v as usize, k);
            Row::Done
        }
        Operation::Stw(k, a, v) => {
            let at = frame[a as usize];
            if !flat.in_flat(at, 8 * u64::from(k)) {
                return Row::Trapped;
            }
            store_row(flat, at, frame, v as usize, k);
            Row::Done
        }
        _ => Row::Other,
    }
}

/// Tells an instruction on a range of bytes, or on an area's length, from others. What it does stands in a function of its
/// own, so that the loop's code stays small.
#[inline(always)]
pub(crate) fn act_ranges(instr: &Instr, flat: &mut Flat, frame: &mut [u64]) -> Row
    requires named { (areas : ℕ) × IsNamed instr.now (length frame.old) areas }
    requires small { length flat.old.bytes < 2 ^ 32 }
    requires whole { is_laid instr.now ≡ false }
    ensures { IsMemoryRow (group instr.now ≡ Bytes) instr.now flat.old flat.new frame.old frame.new
        result }
{
    match *instr {
        Instr::Move(_, _, _) | Instr::Zero(_, _) | Instr::Len(_, _) => act_on_ranges(
            instr, flat, frame,
        ),
        _ => Row::Other,
    }
}

#[inline(never)]
fn act_on_ranges(instr: &Instr, flat: &mut Flat, frame: &mut [u64]) -> Row
    requires named { (areas : ℕ) × IsNamed instr.now (length frame.old) areas }
    requires small { length flat.old.bytes < 2 ^ 32 }
    requires whole { is_laid instr.now ≡ false }
    ensures { IsMemoryRow (group instr.now ≡ Bytes) instr.now flat.old flat.new frame.old frame.new
        result }
{
    match *instr {
        Instr::Move(a, b, n) => {
            let (to, from) = (frame[a as usize], frame[b as usize]);
            if !(flat.in_flat(to, n) && flat.in_flat(from, n)) {
                return Row::Trapped;
            }
            flat.move_bytes(to, from, n);
        }
        Instr::Zero(a, n) => {
            let at = frame[a as usize];
            if !flat.in_flat(at, n) {
                return Row::Trapped;
            }
            flat.zero(at, n);
        }
        Instr::Len(v, b) => {
            let at = frame[b as usize];
            if !has_length(flat, at) {
                return Row::Trapped;
            }
            frame[v as usize] = flat.load(at - 8, 8);
        }
        _ => return Row::Other,
    }
    Row::Done
}
