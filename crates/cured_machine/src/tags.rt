//! Instructions on tagged areas.
ghost use Rattle.std.specs.Prelude.{◌≡◌, ℕ, length};
ghost use Rattle.cured_code.specs.Groups.{Tags, group};
ghost use Rattle.cured_machine.specs.Rows.{IsNamed, IsMemoryRow, areas_in};

use crate::row::Row;
use crate::tests_and_divisions::truth;
use cured_code::Instr;
use flat_mem::Flat;

/// Tells an instruction on tagged areas from others. What it does stands in a function of its own, so that the loop's code
/// stays small.
#[inline(always)]
pub(crate) fn act_tags(instr: &Instr, flat: &mut Flat, frame: &mut [u64]) -> Row
    requires { IsNamed instr.now (length frame.old) (areas_in flat.old) }
    ensures { IsMemoryRow (group instr.now ≡ Tags) instr.now flat.old flat.new frame.old frame.new
        result }
{
    match *instr {
        Instr::Plain(_, _, _, _)
        | Instr::Untag(_, _, _)
        | Instr::Tagged(_, _, _)
        | Instr::Base(_, _, _)
        | Instr::Mark(_, _, _)
        | Instr::Tmove(_, _, _, _, _)
        | Instr::Tzero(_, _, _)
        | Instr::Tdepth(_, _, _, _) => act_on_tags(instr, flat, frame),
        _ => Row::Other,
    }
}

#[inline(never)]
fn act_on_tags(instr: &Instr, flat: &mut Flat, frame: &mut [u64]) -> Row
    requires { IsNamed instr.now (length frame.old) (areas_in flat.old) }
    ensures { IsMemoryRow (group instr.now ≡ Tags) instr.now flat.old flat.new frame.old frame.new
        result }
{
    match *instr {
        Instr::Plain(v, a, b, n) => {
            let (a, b) = (frame[a as usize], frame[b as usize]);
            if !wild_tags::allows_plain(flat, a, b, n) {
                return Row::Trapped;
            }
            frame[v as usize] = truth(wild_tags::plain(flat, a, b, n));
        }
        Instr::Untag(a, b, n) => {
            let (a, b) = (frame[a as usize], frame[b as usize]);
            if !wild_tags::allows_untag(flat, a, b, n) {
                return Row::Trapped;
            }
            wild_tags::untag(flat, a, b, n);
        }
        Instr::Tagged(v, a, b) => {
            let (a, b) = (frame[a as usize], frame[b as usize]);
            if !wild_tags::allows_tagged(flat, a, b) {
                return Row::Trapped;
            }
            frame[v as usize] = truth(wild_tags::tagged(flat, a, b));
        }
        Instr::Base(v, a, b) => {
            let (a, b) = (frame[a as usize], frame[b as usize]);
            if !wild_tags::allows_base(flat, a, b) {
                return Row::Trapped;
            }
            frame[v as usize] = wild_tags::base(flat, a, b);
        }
        Instr::Mark(a, b, w) => {
            let (a, b) = (frame[a as usize], frame[b as usize]);
            if !wild_tags::allows_mark(flat, a, b) {
                return Row::Trapped;
            }
            wild_tags::mark(flat, a, b, frame[w as usize]);
        }
        Instr::Tmove(a, b, c, d, n) => {
            let (a, b) = (frame[a as usize], frame[b as usize]);
            let (c, d) = (frame[c as usize], frame[d as usize]);
            if !wild_tags::allows_move(flat, a, b, c, d, n) {
                return Row::Trapped;
            }
            wild_tags::tmove(flat, a, b, c, d, n);
        }
        Instr::Tzero(a, b, n) => {
            let (a, b) = (frame[a as usize], frame[b as usize]);
            if !wild_tags::allows_zero(flat, a, b, n) {
                return Row::Trapped;
            }
            wild_tags::tzero(flat, a, b, n);
        }
        Instr::Tdepth(v, a, b, n) => {
            let (a, b) = (frame[a as usize], frame[b as usize]);
            if !wild_tags::allows_depth(flat, a, b, n) {
                return Row::Trapped;
            }
            frame[v as usize] = wild_tags::tdepth(flat, a, b, n);
        }
        _ => return Row::Other,
    }
    Row::Done
}
