// Texts in which a piece stands many times.
use std::alloc::Global;
use vale_base::Memory;

/// A front, then a piece so many times, then a middle and as often what closes the piece.
pub fn repeated(
    alloc: Global,
    parts: (&str, &str, &str, &str),
    times: u32,
) -> Result<Vec<u8>, Memory> {
    let (front, open, middle, close) = parts;
    let mut text = Vec::from_slice(alloc, front.as_bytes())?;
    for _ in 0..times {
        text.extend_from_slice(open.as_bytes())?;
    }
    text.extend_from_slice(middle.as_bytes())?;
    for _ in 0..times {
        text.extend_from_slice(close.as_bytes())?;
    }
    Ok(text)
}

/// What stands around the names that a `main` declares, and around each of their numbers.
pub const NAMES: (&str, &str, &str, &str) = ("func main() {", " x", " = 1;", " }");

/// A front, then the numbers up to `count`, each between two pieces, and then a back.
pub fn numbered(
    alloc: Global,
    parts: (&str, &str, &str, &str),
    count: u32,
) -> Result<Vec<u8>, Memory> {
    let (front, before, after, back) = parts;
    let mut text = Vec::from_slice(alloc, front.as_bytes())?;
    for i in 0..count {
        let piece = format!(in alloc; "{before}{i}{after}")?;
        text.extend_from_slice(piece.as_bytes())?;
    }
    text.extend_from_slice(back.as_bytes())?;
    Ok(text)
}
