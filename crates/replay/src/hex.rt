// Hexadecimal digits, in lower case.
ghost use Rattle.std.specs.Prelude.{◌<◌, ◌≤◌, IfSome, length};

const DIGITS: &[u8; 16] = b"0123456789abcdef";

// What a byte is as a digit. `char::to_digit` would take upper case too.
pub(crate) fn value(byte: u8) -> Option<u8>
    ensures { IfSome result (λ n. n < 16) }
{
    match byte {
        b'0'..=b'9' => Some(byte - b'0'),
        b'a'..=b'f' => Some(byte - b'a' + 10),
        _ => None,
    }
}

// The digits of bytes, at the start of `out`.
pub(crate) fn digits<'a>(bytes: &[u8], out: &'a mut [u8; 64]) -> &'a [u8]
    requires { length bytes.now ≤ 32 }
{
    for (i, byte) in bytes.iter().enumerate() {
        out[2 * i] = DIGITS[usize::from(*byte / 16)];
        out[2 * i + 1] = DIGITS[usize::from(*byte % 16)];
    }
    &out[..2 * bytes.len()]
}
