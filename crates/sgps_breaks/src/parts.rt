//! The parts of a script, and what they print.

use std::alloc::{AllocError, Global};

/// A statement of the script.
#[derive(Drop)]
pub struct Part {
    /// Where its first byte stands.
    pub begin: usize,
    /// Where the byte behind it stands.
    pub end: usize,
    /// The line of its first byte, from 1.
    pub line: usize,
    /// What it prints.
    pub text: Vec<u8>,
}

/// The statements of a script, in their order.
pub fn parts_of(alloc: Global, script: &str) -> Result<Vec<Part>, AllocError> {
    let mut parts = Vec::new(alloc);
    let mut begin = 0usize;
    let mut line = 1usize;
    for text in script.split("\n\n") {
        if let Some(part) = part_of(alloc, text, begin, line)? {
            parts.push(part)?;
        }
        begin = begin.saturating_add(text.len()).saturating_add(2);
        line = line
            .saturating_add(text.matches('\n').count())
            .saturating_add(2);
    }
    Ok(parts)
}

/// The statement of a part that begins at this byte and in this line, if it has one.
fn part_of(
    alloc: Global,
    text: &str,
    begin: usize,
    line: usize,
) -> Result<Option<Part>, AllocError> {
    let mut found = None;
    let mut at = begin;
    let mut number = line;
    for row in text.lines() {
        let end = at.saturating_add(row.len());
        if !row.starts_with('#') {
            let (first, on) = found.map_or((at, number), |(first, on, _)| (first, on));
            found = Some((first, on, end));
        }
        at = end.saturating_add(1);
        number = number.saturating_add(1);
    }
    let Some((begin, line, end)) = found else {
        return Ok(None);
    };
    Ok(Some(Part {
        begin,
        end,
        line,
        text: printed_by(alloc, text)?,
    }))
}

/// What a part prints: the texts behind its marks, joined by line feeds.
fn printed_by(alloc: Global, part: &str) -> Result<Vec<u8>, AllocError> {
    let mut printed = Vec::new(alloc);
    let mut is_first = true;
    for row in part.lines() {
        if let Some(text) = row.strip_prefix("#>") {
            if !is_first {
                printed.push(b'\n')?;
            }
            is_first = false;
            printed.extend_from_slice(text.strip_prefix(' ').unwrap_or(text).as_bytes())?;
        }
    }
    Ok(printed)
}

/// What the statements print that end within so many bytes.
pub fn printed_within(alloc: Global, parts: &[Part], bytes: usize) -> Result<Vec<u8>, AllocError> {
    let mut printed = Vec::new(alloc);
    for part in parts {
        if part.end <= bytes {
            printed.extend_from_slice(&part.text)?;
        }
    }
    Ok(printed)
}

/// Where the statements begin that print something.
pub fn writes_of(alloc: Global, parts: &[Part]) -> Result<Vec<usize>, AllocError> {
    let mut begins = Vec::new(alloc);
    for part in parts {
        if !part.text.is_empty() {
            begins.push(part.begin)?;
        }
    }
    Ok(begins)
}
