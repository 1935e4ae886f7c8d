//! Rows of slots: where they are read from one frame and written in another.
ghost use Rattle.std.specs.Prelude.{◌≡◌, ◌+◌, ◌-◌, ◌≤◌, ◌++◌, length, replicate, take, drop};
ghost use Rattle.flat_mem.specs.Bytes.{written, zeroed};
ghost use Rattle.cured_machine.specs.Outer.{IsRowHeld, row_given};

/// Writes the words into the slots from `at` on. Mostly there is one: it is written with no loop.
#[inline(always)]
fn put_words(frame: &mut [u64], at: usize, words: &[u64])
    requires { at + length words.now ≤ length frame.old }
    ensures { frame.new ≡ written words.now frame.old at }
{
    if let Some((first, rest)) = words.split_first() {
        frame[at] = *first;
        if !rest.is_empty() {
            put_each(frame, at + 1, rest);
        }
    }
}

/// Writes each of the words.
#[inline(never)]
fn put_each(frame: &mut [u64], at: usize, words: &[u64])
    requires { at + length words.now ≤ length frame.old }
    ensures { frame.new ≡ written words.now frame.old at }
{
    for i in 0..words.len() {
        frame[at + i] = words[i];
    }
}

/// Makes `count` slots from `at` on 0.
pub(crate) fn put_zeros(frame: &mut [u64], at: usize, count: usize)
    requires { at + count ≤ length frame.old }
    ensures { frame.new ≡ zeroed count frame.old at }
{
    for i in at..at + count {
        frame[i] = 0;
    }
}

/// The same, as words.
#[tactic(auto, using(crate::proofs::SlotLaws::zeroed_written))]
fn put_zero_words(frame: &mut [u64], at: usize, count: usize)
    requires { at + count ≤ length frame.old }
    ensures { frame.new ≡ written (replicate count 0) frame.old at }
{
    put_zeros(frame, at, count);
}

/// Makes the first `count` slots 0, where they are at most 8. Each is stored by itself: for so few a call costs more.
#[inline(always)]
fn put_few_zeros(frame: &mut [u64], count: usize)
    requires few { count ≤ 8 }
    requires room { count ≤ length frame.old }
    ensures { frame.new ≡ zeroed count frame.old 0 }
{
    for i in 0..8_usize {
        if i < count {
            frame[i] = 0;
        }
    }
}

/// Makes all slots 0.
#[inline(always)]
fn clear(frame: &mut [u64])
    ensures { frame.new ≡ zeroed (length frame.old) frame.old 0 }
{
    let count = frame.len();
    if count <= 8 {
        put_few_zeros(frame, count);
    } else {
        put_zeros(frame, 0, count);
    }
}

/// Makes the slots those with which a function begins: its parameters first, all others 0.
fn begin(frame: &mut [u64], words: &[u64])
    requires { length words.now ≤ length frame.old }
    ensures { frame.new ≡ written words.now (replicate (length frame.old) 0) 0 }
{
    clear(frame);
    put_words(frame, 0, words);
}

/// Makes the slots from `base` on those with which a function begins: `count` slots, the first of them the words from
/// `first` on.
pub(crate) fn enter_frame(slots: &mut [u64], first: usize, params: usize, base: usize, count: usize)
    requires words { first + params ≤ base }
    requires params { params ≤ count }
    requires room { base + count ≤ length slots.old }
    ensures made { slots.new ≡ take base slots.old ++ (written (take params (drop first slots.old))
        (replicate count 0) 0 ++ drop (base + count) slots.old) }
    ensures length { length slots.new ≡ length slots.old }
{
    let (low, high) = slots.split_at_mut(base);
    begin(&mut high[..count], &low[first..first + params]);
}

/// Writes the words from `first` on into the slots from `into` on of the frame between `base` and `top`.
fn give_words(slots: &mut [u64], base: usize, top: usize, into: usize, first: usize, count: usize)
    requires words { top + first + count ≤ length slots.old }
    requires frame { base + into + count ≤ top }
    ensures made { slots.new ≡ take base slots.old ++ (written
        (take count (drop (top + first) slots.old))
        (take (top - base) (drop base slots.old)) into ++ drop top slots.old) }
    ensures length { length slots.new ≡ length slots.old }
{
    let (low, high) = slots.split_at_mut(top);
    put_words(&mut low[base..], into, &high[first..first + count]);
}

/// Makes `count` slots from `into` on of the frame between `base` and `top` 0.
fn give_zeros(slots: &mut [u64], base: usize, top: usize, into: usize, count: usize)
    requires room { top ≤ length slots.old }
    requires frame { base + into + count ≤ top }
    ensures made { slots.new ≡ take base slots.old ++ (written (replicate count 0)
        (take (top - base) (drop base slots.old)) into ++ drop top slots.old) }
    ensures length { length slots.new ≡ length slots.old }
{
    let (low, _) = slots.split_at_mut(top);
    put_zero_words(&mut low[base..], into, count);
}

/// Puts what a function whose slots begin at `top` gives, the `count` words from one of its slots on or as many zeros, into
/// the slots from `into` on of the frame between `base` and `top`.
pub(crate) fn give_back(
    slots: &mut [u64],
    base: usize,
    top: usize,
    into: usize,
    words: Option<usize>,
    count: usize,
)
    requires room { top ≤ length slots.old }
    requires held { IsRowHeld count top (length slots.old) words }
    requires frame { base + into + count ≤ top }
    ensures made { slots.new ≡ take base slots.old ++ (written (row_given count top slots.old words)
        (take (top - base) (drop base slots.old)) into ++ drop top slots.old) }
    ensures length { length slots.new ≡ length slots.old }
{
    match words {
        None => give_zeros(slots, base, top, into, count),
        Some(first) => give_words(slots, base, top, into, first, count),
    }
}
