// Numbers that never pass their range.
// A sum of what was answered.
pub(crate) fn mix(sum: u64, x: u64) -> u64 {
    (sum % 1000000007 * 31 + x % 1000000007 + 1) % 1000000007
}

// The next number, or the last of all.
pub(crate) fn after(n: u64) -> u64 {
    if n < 0xffff_ffff_ffff_ffff {
        return n + 1;
    }
    n
}

// How far a number rose.
pub(crate) fn rise(from: u64, to: u64) -> u64 {
    if to < from {
        return 0;
    }
    to - from
}
