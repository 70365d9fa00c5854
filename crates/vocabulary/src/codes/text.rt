// Bytes as text.
ghost use Rattle.std.specs.Prelude.{◌≡◌, IsAscii};

use std::str::from_utf8;

// The text that ASCII bytes are.
pub fn ascii_text(bytes: &[u8]) -> &str
    requires { IsAscii bytes.now }
    ensures { result.now ≡ bytes.now }
{
    from_utf8(bytes).unwrap()
}
