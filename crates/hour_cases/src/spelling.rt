use std::alloc::{AllocError, Global};

/// The value of a hexadecimal digit in lower case.
fn digit_of(digit: u8) -> Option<u8> {
    match digit {
        // a capital is a digit to the library, and none here
        b'A'..=b'F' => None,
        _ => Some((digit as char).to_digit(16)? as u8),
    }
}

/// The byte of two hexadecimal digits.
fn byte_of(pair: &[u8; 2]) -> Option<u8> {
    let [high, low] = pair.map(digit_of);
    Some(high? << 4 | low?)
}

/// The bytes that pairs of hexadecimal digits spell; they end where a pair does not.
pub(crate) fn bytes_of(heap: Global, text: &str) -> Result<Vec<u8>, AllocError> {
    let (pairs, _) = text.as_bytes().as_chunks();
    pairs.iter().map_while(byte_of).collect(heap)
}

/// The text in which `\n` stands for each newline. A backslash that no `n` follows is left out.
pub(crate) fn lines_of(heap: Global, text: &str) -> Result<Vec<u8>, AllocError> {
    let mut bytes = Vec::new(heap);
    for (i, piece) in text.split('\\').enumerate() {
        let rest = match piece.strip_prefix('n') {
            Some(rest) if i > 0 => {
                bytes.push(b'\n')?;
                rest
            }
            _ => piece,
        };
        bytes.extend_from_slice(rest.as_bytes())?;
    }
    Ok(bytes)
}
