use std::alloc::{AllocError, Global};
use weed_base::{Name, Path};

/// The key of a path: each part with a zero byte behind it, so that keys are ordered as paths are.
pub fn key_of(alloc: Global, path: &Path) -> Result<Vec<u8>, AllocError> {
    let text = path.text();
    let mut key = Vec::with_capacity(alloc, text.len())?;
    if text.len() == 1 {
        return Ok(key);
    }
    for byte in &text[1..] {
        key.push(if *byte == b'/' { 0 } else { *byte })?;
    }
    key.push(0)?;
    Ok(key)
}

/// The first key past those of what stands at a path and below it.
pub fn key_past(alloc: Global, path: &Path) -> Result<Vec<u8>, AllocError> {
    let mut key = key_of(alloc, path)?;
    match key.pop() {
        Some(_) => key.push(1)?,
        None => key.push(255)?,
    }
    Ok(key)
}

/// The key of a name in the directory of a key.
pub fn key_in(alloc: Global, dir: &[u8], name: &Name) -> Result<Vec<u8>, AllocError> {
    let mut key = dir.to_vec(alloc)?;
    key.extend_from_slice(name.as_slice())?;
    key.push(0)?;
    Ok(key)
}

/// The text of the path of a key.
pub fn text_of(alloc: Global, key: &[u8]) -> Result<Vec<u8>, AllocError> {
    let mut text = Vec::new(alloc);
    text.push(b'/')?;
    for byte in key {
        text.push(if *byte == 0 { b'/' } else { *byte })?;
    }
    if text.len() > 1 {
        let _ = text.pop();
    }
    Ok(text)
}
