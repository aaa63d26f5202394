//! Bytes as text.

ghost use Rattle.std.specs.Prelude.{◌≡◌, IsAscii};

/// The text whose characters these bytes are, each below 128.
pub fn ascii_text(bytes: &[u8]) -> &str
    requires { IsAscii bytes.now }
    ensures { result.now ≡ bytes.now }
{
    match std::str::from_utf8(bytes) {
        Ok(text) => text,
        Err(_) => unreachable!(),
    }
}
