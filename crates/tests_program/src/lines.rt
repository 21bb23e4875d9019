//! Scripts and texts as rows of a table have them.
use std::alloc::Global;
use std::test::Fail;

/// The bytes of a script or a text, in which ` / ` stands for the end of a line.
pub fn lines(alloc: Global, row: &str) -> Result<Vec<u8>, Fail> {
    let mut bytes = Vec::new(alloc);
    if row.is_empty() {
        return Ok(bytes);
    }
    for line in row.split(" / ") {
        bytes.extend_from_slice(line.as_bytes())?;
        bytes.push(b'\n')?;
    }
    Ok(bytes)
}
