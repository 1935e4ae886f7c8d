//! Numbers of 1, 2, 4 and 8 bytes in a list of bytes, low byte first.
// Numbers in a slice of bytes, little-endian; zeroing and moving bytes.

ghost use Rattle.std.specs.Prelude.{◌≡◌, ◌+◌, ◌≤◌, length};
ghost use Rattle.flat_mem.specs.Bytes.{number, stored, zeroed, moved, IsAccessSize};

// The number of `n` bytes at `at`.
pub(crate) fn number_at(bytes: &[u8], at: usize, n: u64) -> u64
    requires size { IsAccessSize n }
    requires inside { at + n ≤ length bytes.now }
    ensures { result ≡ number n bytes.now at }
{
    match n {
        1 => u64::from(number_1(bytes, at)),
        2 => u64::from(number_2(bytes, at)),
        4 => u64::from(number_4(bytes, at)),
        _ => number_8(bytes, at),
    }
}

fn number_1(bytes: &[u8], at: usize) -> u8
    requires { at + 1 ≤ length bytes.now }
    ensures { result ≡ number 1 bytes.now at }
{
    bytes[at]
}

fn number_2(bytes: &[u8], at: usize) -> u16
    requires { at + 2 ≤ length bytes.now }
    ensures { result ≡ number 2 bytes.now at }
{
    u16::from_le_bytes([bytes[at], bytes[at + 1]])
}

fn number_4(bytes: &[u8], at: usize) -> u32
    requires { at + 4 ≤ length bytes.now }
    ensures { result ≡ number 4 bytes.now at }
{
    u32::from_le_bytes([bytes[at], bytes[at + 1], bytes[at + 2], bytes[at + 3]])
}

fn number_8(bytes: &[u8], at: usize) -> u64
    requires { at + 8 ≤ length bytes.now }
    ensures { result ≡ number 8 bytes.now at }
{
    u64::from_le_bytes([
        bytes[at],
        bytes[at + 1],
        bytes[at + 2],
        bytes[at + 3],
        bytes[at + 4],
        bytes[at + 5],
        bytes[at + 6],
        bytes[at + 7],
    ])
}

// Writes the `n` low bytes of `v` at `at`.
pub(crate) fn store_at(bytes: &mut [u8], at: usize, n: u64, v: u64)
    requires size { IsAccessSize n }
    requires inside { at + n ≤ length bytes.old }
    ensures { bytes.new ≡ stored n bytes.old at v }
{
    match n {
        1 => store_1(bytes, at, v),
        2 => store_2(bytes, at, v),
        4 => store_4(bytes, at, v),
        _ => store_8(bytes, at, v),
    }
}

fn store_1(bytes: &mut [u8], at: usize, v: u64)
    requires { at + 1 ≤ length bytes.old }
    ensures { bytes.new ≡ stored 1 bytes.old at v }
{
    let low = v.to_le_bytes();
    bytes[at] = low[0];
}

fn store_2(bytes: &mut [u8], at: usize, v: u64)
    requires { at + 2 ≤ length bytes.old }
    ensures { bytes.new ≡ stored 2 bytes.old at v }
{
    let low = v.to_le_bytes();
    bytes[at] = low[0];
    bytes[at + 1] = low[1];
}

fn store_4(bytes: &mut [u8], at: usize, v: u64)
    requires { at + 4 ≤ length bytes.old }
    ensures { bytes.new ≡ stored 4 bytes.old at v }
{
    let low = v.to_le_bytes();
    bytes[at] = low[0];
    bytes[at + 1] = low[1];
    bytes[at + 2] = low[2];
    bytes[at + 3] = low[3];
}

fn store_8(bytes: &mut [u8], at: usize, v: u64)
    requires { at + 8 ≤ length bytes.old }
    ensures { bytes.new ≡ stored 8 bytes.old at v }
{
    let low = v.to_le_bytes();
    bytes[at] = low[0];
    bytes[at + 1] = low[1];
    bytes[at + 2] = low[2];
    bytes[at + 3] = low[3];
    bytes[at + 4] = low[4];
    bytes[at + 5] = low[5];
    bytes[at + 6] = low[6];
    bytes[at + 7] = low[7];
}

// Zeroes the `n` bytes at `at`.
pub(crate) fn zero_at(bytes: &mut [u8], at: usize, n: usize)
    requires { at + n ≤ length bytes.old }
    ensures { bytes.new ≡ zeroed n bytes.old at }
{
    for i in at..at + n {
        bytes[i] = 0;
    }
}

// Copies the `n` bytes at `from` to `to`, as if all were read before the first is written.
pub(crate) fn move_within(bytes: &mut [u8], to: usize, from: usize, n: usize)
    requires source { from + n ≤ length bytes.old }
    requires target { to + n ≤ length bytes.old }
    ensures { bytes.new ≡ moved n bytes.old to from }
{
    if to <= from {
        move_down(bytes, to, from, n);
    } else {
        move_up(bytes, to, from, n);
    }
}

fn move_down(bytes: &mut [u8], to: usize, from: usize, n: usize)
    requires down { to ≤ from }
    requires source { from + n ≤ length bytes.old }
    ensures { bytes.new ≡ moved n bytes.old to from }
{
    for i in 0..n {
        bytes[to + i] = bytes[from + i];
    }
}

fn move_up(bytes: &mut [u8], to: usize, from: usize, n: usize)
    requires up { from ≤ to }
    requires target { to + n ≤ length bytes.old }
    ensures { bytes.new ≡ moved n bytes.old to from }
{
    for i in (0..n).rev() {
        bytes[to + i] = bytes[from + i];
    }
}
