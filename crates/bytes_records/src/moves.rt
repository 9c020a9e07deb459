// Moves of bytes inside one lent slice, in place.
ghost use Rattle.std.specs.Prelude.{◌≡◌, ◌++◌, ◌-◌, ◌≤◌, length, take, drop};
ghost use Rattle.bytes_records.specs.Moves.{zeros, overwrite_rows, push_front, push_back, pop_front};

// Copies source over the first bytes of target.
pub fn copy(source: &[u8], target: &mut [u8])
    requires { length source.now ≤ length target.old }
    ensures { target.new ≡ overwrite_rows source.now target.old }
{
    target[..source.len()].copy_from_slice(source);
}

// Copies each byte of s to the position `by` above it. The last `by` bytes are lost, and the first `by`
// stay.
fn shift_up(s: &mut [u8], by: usize)
    requires { by ≤ length s.old }
    ensures { s.new ≡ take by s.old ++ take (length s.old - by) s.old }
{
    let end = s.len() - by;
    s.copy_within(..end, by);
}

// Copies each byte of s to the position `by` below it. The first `by` bytes are lost, and the last `by`
// stay.
fn shift_down(s: &mut [u8], by: usize)
    requires { by ≤ length s.old }
    ensures { s.new ≡ drop by s.old ++ drop (length s.old - by) s.old }
{
    s.copy_within(by.., 0);
}

// Sets every byte of s to 0.
pub fn clear(s: &mut [u8])
    ensures { s.new ≡ zeros (length s.old) }
{
    s.fill(0);
}

// Inserts r before the bytes of s, whose last ones are lost.
pub fn push_front(s: &mut [u8], r: &[u8])
    requires { length r.now ≤ length s.old }
    ensures { s.new ≡ push_front r.now s.old }
{
    shift_up(s, r.len());
    copy(r, s);
}

// Inserts r behind the bytes of s, whose first ones are lost.
pub fn push_back(s: &mut [u8], r: &[u8])
    requires { length r.now ≤ length s.old }
    ensures { s.new ≡ push_back r.now s.old }
{
    shift_down(s, r.len());
    let end = s.len() - r.len();
    copy(r, &mut s[end..]);
}

// Removes the first `by` bytes of s, and sets as many to 0 at its end.
pub fn pop_front(s: &mut [u8], by: usize)
    requires { by ≤ length s.old }
    ensures { s.new ≡ pop_front by s.old }
{
    shift_down(s, by);
    let end = s.len() - by;
    clear(&mut s[end..]);
}
