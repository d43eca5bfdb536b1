// The bit fields of a sheet, out of the bytes that they lie in.
ghost use Rattle.std.specs.Prelude.{◌≡◌, ◌+◌, ◌*◌, ◌^◌, ◌<◌, ◌≤◌, length, slice_index};
ghost use Rattle.format.specs.Fields.{field_at};

// A byte, and 0 past the end.
fn byte(bytes: &[u8], i: usize) -> u8
    ensures { result ≡ slice_index bytes.now i }
{
    bytes.get(i).copied().unwrap_or(0)
}

// The field of WIDTH bits from bit `at` on: two or three bytes and a shift.
pub(crate) fn field<const WIDTH: usize>(bytes: &[u8], at: usize) -> u16
    requires some { 1 ≤ WIDTH }
    requires narrow { WIDTH ≤ 16 }
    requires inside { at + WIDTH ≤ 8 * length bytes.now }
    ensures value { result ≡ field_at bytes.now at WIDTH }
    ensures fits { result < 2 ^ WIDTH }
{
    let i = at / 8;
    // Two forms, for speed: a field of at most 8 bits never reaches a third byte, and a wider one always a second, so each form
    // tests one byte alone. Products and sums, since `from_be_bytes` would turn the bytes round first.
    if WIDTH <= 8 {
        let two = u16::from(bytes[i]) * 256 + u16::from(byte(bytes, i + 1));
        return (two >> (16 - WIDTH - at % 8)) % (1 << WIDTH);
    }
    let three = (u32::from(bytes[i]) * 256 + u32::from(bytes[i + 1])) * 256
        + u32::from(byte(bytes, i + 2));
    ((three >> (24 - WIDTH - at % 8)) % (1 << WIDTH)) as u16
}
