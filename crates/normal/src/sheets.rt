// Comparing sheets.
ghost use Rattle.std.specs.Prelude.{◌≡◌};
ghost use Rattle.std.specs.Str.{bytes_eq};

// A name for `==`, since users compare sheets by it.
/// Whether two sheets are the same bytes.
pub fn same_sheet(left: &[u8], right: &[u8]) -> bool
    ensures { result ≡ bytes_eq left.now right.now }
{
    left == right
}
