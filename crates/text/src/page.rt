// Lines that are collected in lent bytes and written to standard output when the bytes are nearly full.

// What is collected could not be written, and nothing more is to be.
#[derive(Clone, Copy)]
pub struct Lost;

// More than the lines of one step take, 129 of at most 69 bytes.
const SPARE: usize = 9000;

// Writes what is collected before a place.
pub fn write_page(rt: &impl Print, out: &[u8], to: usize) -> Result<(), Lost> {
    let page = out.get(..to).ok_or(Lost)?;
    rt.write_all(page).map_err(|_| Lost)
}

// Writes it only where there might be no room for the lines of another step. Answers the place after what is collected then.
pub fn turn_page(rt: &impl Print, out: &[u8], to: usize) -> Result<usize, Lost> {
    if out.len().saturating_sub(to) > SPARE {
        return Ok(to);
    }
    write_page(rt, out, to)?;
    Ok(0)
}
