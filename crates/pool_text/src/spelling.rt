// Whether bytes are the same, several at a time.
ghost use Rattle.std.specs.Prelude.{◌≡◌, ◌↔◌, ◌+◌, ◌<◌, ◌≤◌, IsTrue, drop, length, take};
ghost use Rattle.std.specs.Int.{from_le_bytes, w32, w64};

/// Whether two texts of one length have the same bytes. Names are short, and std's compare takes over a hundred instructions for
/// one of ten bytes. The groups at both ends of a short name may overlap, so that none of four bytes or more is gone through byte
/// by byte.
#[inline(always)]
pub fn are_spelled_alike(a: &[u8], b: &[u8]) -> bool
    requires { length a.now ≡ length b.now }
    ensures { IsTrue result ↔ (a.now ≡ b.now) }
{
    let len = a.len();
    if len >= 8 {
        are_alike_by_eights(a, b)
    } else if len >= 4 {
        have_four_alike(a, b, 0) && have_four_alike(a, b, len - 4)
    } else {
        are_alike_by_bytes(a, b)
    }
}

#[inline(always)]
fn are_alike_by_eights(a: &[u8], b: &[u8]) -> bool
    requires same_length { length a.now ≡ length b.now }
    requires long { 8 ≤ length a.now }
    ensures { IsTrue result ↔ (a.now ≡ b.now) }
{
    let last = a.len() - 8;
    let mut start = 0;
    while start < last {
        if !have_eight_alike(a, b, start) {
            return false;
        }
        start += 8;
    }
    have_eight_alike(a, b, last)
}

#[inline(always)]
fn are_alike_by_bytes(a: &[u8], b: &[u8]) -> bool
    ensures { IsTrue result ↔ (a.now ≡ b.now) }
{
    let mut left = a;
    let mut right = b;
    while let [x, left_rest @ ..] = left {
        let [y, right_rest @ ..] = right else {
            return false;
        };
        if x != y {
            return false;
        }
        left = left_rest;
        right = right_rest;
    }
    right.is_empty()
}

#[inline(always)]
fn have_eight_alike(a: &[u8], b: &[u8], start: usize) -> bool
    requires a { start + 8 ≤ length a.now }
    requires b { start + 8 ≤ length b.now }
    ensures { IsTrue result ↔ (take 8 (drop start a.now) ≡ take 8 (drop start b.now)) }
{
    eight(a, start) == eight(b, start)
}

#[inline(always)]
fn have_four_alike(a: &[u8], b: &[u8], start: usize) -> bool
    requires a { start + 4 ≤ length a.now }
    requires b { start + 4 ≤ length b.now }
    ensures { IsTrue result ↔ (take 4 (drop start a.now) ≡ take 4 (drop start b.now)) }
{
    four(a, start) == four(b, start)
}

// Eight bytes as one number, which the machine reads and compares at once.
#[inline(always)]
fn eight(bytes: &[u8], start: usize) -> u64
    requires { start + 8 ≤ length bytes.now }
    ensures { result ≡ from_le_bytes w64 (take 8 (drop start bytes.now)) }
{
    let mut group = [0; 8];
    group.copy_from_slice(&bytes[start..start + 8]);
    u64::from_le_bytes(group)
}

#[inline(always)]
fn four(bytes: &[u8], start: usize) -> u32
    requires { start + 4 ≤ length bytes.now }
    ensures { result ≡ from_le_bytes w32 (take 4 (drop start bytes.now)) }
{
    let mut group = [0; 4];
    group.copy_from_slice(&bytes[start..start + 4]);
    u32::from_le_bytes(group)
}
