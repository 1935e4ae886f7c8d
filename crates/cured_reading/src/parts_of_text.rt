//! Lines of a text and words of a line, lent.
ghost use Rattle.std.specs.Prelude.{◌≡◌, ◌≤◌, length, drop, IfSome, IfNone};
ghost use Rattle.cured_reading.specs.Parts.{size_before, Holds, IsLineAt, IsWordAt};

/// How many bytes stand before the first `byte`; all where there is none.
#[tactic(auto, using(crate::proofs::BeforeLaws::passed, crate::proofs::BeforeLaws::stopped))]
fn size_before(bytes: &[u8], byte: u8) -> usize
    ensures size { result ≡ size_before byte bytes.now }
    ensures within { result ≤ length bytes.now }
{
    for (i, each) in bytes.iter().enumerate() {
        if *each == byte {
            return i;
        }
    }
    bytes.len()
}

/// The line that begins at `from`, without its line feed, and the place after that. None exactly where no line feed stands
/// at or after `from`. Takes no memory.
pub fn line<'a>(text: &'a [u8], from: usize) -> Option<(&'a [u8], usize)>
    requires { from ≤ length text.now }
    ensures found { IfSome result (λ l. IsLineAt text.now from l.0.now l.1) }
    ensures none { IfNone result (Holds 10 (drop from text.now) → ⊥) }
{
    let (_, rest) = text.split_at(from);
    let size = size_before(rest, b'\n');
    if size == rest.len() {
        return None;
    }
    let (part, _) = rest.split_at(size);
    Some((part, from + size + 1))
}

/// The longest part from `from` on without a space, and the place after it and after one space that follows. None exactly
/// where `from` is the line's length or a space stands there. Takes no memory.
pub fn word<'a>(line: &'a [u8], from: usize) -> Option<(&'a [u8], usize)>
    requires { from ≤ length line.now }
    ensures found { IfSome result (λ w. IsWordAt line.now from w.0.now w.1) }
    ensures none { IfNone result (size_before 32 (drop from line.now) ≡ 0) }
{
    let (_, rest) = line.split_at(from);
    let size = size_before(rest, b' ');
    if size == 0 {
        return None;
    }
    let (part, _) = rest.split_at(size);
    Some((part, line.len().min(from + size + 1)))
}
