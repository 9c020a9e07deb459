// Little-endian numbers in lent slices. Every position may be asked for: where a number does not fit, reading answers None, and writing
// answers false and changes nothing.
#![tactic(auto)]

ghost use Rattle.std.specs.Prelude.{◌≡◌, ◌+◌, leb, length, drop};
ghost use Rattle.std.specs.Int.{w64};
ghost use Rattle.std.proofs.Common.{of_z};
ghost use Rattle.spec_lists.specs.Bytes.{little_endian};
ghost use Rattle.spec_lists.specs.Options.{optional_of};
ghost use Rattle.bytes_wire.specs.Read.{first_number, first_signed};
ghost use Rattle.bytes_wire.specs.Write.{has_room, overwrite};
ghost use Rattle.bytes_wire.specs.Prefix.{starts_with};

// Whether len elements reach to index at and n further.
pub fn has_room(len: usize, at: usize, n: usize) -> bool
    ensures { result ≡ leb (at + n) len }
{
    at <= len && n <= len - at
}

pub fn read_u8_at(part: &[u8], at: usize) -> Option<u8>
    ensures { optional_of result ≡ first_number 1 (drop at part.now) }
{
    part.get(at).copied()
}

pub fn read_u32_at(part: &[u8], at: usize) -> Option<u32>
    ensures { optional_of result ≡ first_number 4 (drop at part.now) }
{
    Some(u32::from_le_bytes(*part.get(at..)?.first_chunk::<4>()?))
}

pub fn read_u64_at(part: &[u8], at: usize) -> Option<u64>
    ensures { optional_of result ≡ first_number 8 (drop at part.now) }
{
    Some(u64::from_le_bytes(*part.get(at..)?.first_chunk::<8>()?))
}

pub fn read_i64_at(part: &[u8], at: usize) -> Option<i64>
    ensures { optional_of result ≡ first_signed (drop at part.now) }
{
    Some(read_u64_at(part, at)?.cast_signed())
}

// Whether the bytes from index at on begin with prefix.
pub fn starts_with(part: &[u8], at: usize, prefix: &[u8]) -> bool
    ensures { result ≡ starts_with prefix.now (drop at part.now) }
{
    part.get(at..).unwrap_or(&[]).starts_with(prefix)
}

pub fn write_u8_at(out: &mut [u8], at: usize, x: u8) -> bool
    ensures value { result ≡ has_room out.old at 1 }
    ensures out_after { out.new ≡ overwrite out.old at (little_endian 1 x) }
{
    write_bytes_at(out, at, &[x])
}

pub fn write_u32_at(out: &mut [u8], at: usize, x: u32) -> bool
    ensures value { result ≡ has_room out.old at 4 }
    ensures out_after { out.new ≡ overwrite out.old at (little_endian 4 x) }
{
    write_bytes_at(out, at, &x.to_le_bytes())
}

pub fn write_u64_at(out: &mut [u8], at: usize, x: u64) -> bool
    ensures value { result ≡ has_room out.old at 8 }
    ensures out_after { out.new ≡ overwrite out.old at (little_endian 8 x) }
{
    write_bytes_at(out, at, &x.to_le_bytes())
}

pub fn write_i64_at(out: &mut [u8], at: usize, z: i64) -> bool
    ensures value { result ≡ has_room out.old at 8 }
    ensures out_after { out.new ≡ overwrite out.old at (little_endian 8 (of_z w64 z)) }
{
    write_u64_at(out, at, z.cast_unsigned())
}

pub fn write_bytes_at(out: &mut [u8], at: usize, bytes: &[u8]) -> bool
    ensures value { result ≡ has_room out.old at (length bytes.now) }
    ensures out_after { out.new ≡ overwrite out.old at bytes.now }
{
    if !has_room(out.len(), at, bytes.len()) {
        return false;
    }
    out[at..at + bytes.len()].copy_from_slice(bytes);
    true
}
