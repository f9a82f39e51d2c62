// Sixteen bytes that are written as they are.
use text::{Cursor, Expected};

// `raw` and sixteen bytes, two hexadecimal digits each.
pub(crate) fn raw_bytes(c: Cursor) -> Result<([u8; 16], Cursor), Expected> {
    let mut c = c.literal(b"raw", Expected::Kind)?;
    let mut bytes = [0u8; 16];
    for b in bytes.iter_mut() {
        (*b, c) = c.byte()?;
    }
    Ok((bytes, c))
}
