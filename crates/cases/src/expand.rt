use std::alloc::{AllocError, Global};

/// What stands after a brace as `N*TEXT}`: the number, the text, and what follows.
fn repetition(text: &str) -> Option<(usize, &str, &str)> {
    let (count, text) = text.split_once('*')?;
    let (piece, rest) = text.split_once('}')?;
    Some((count.parse().ok()?, piece, rest))
}

/// The text in which each `{N*TEXT}` is written as N times TEXT.
pub fn repeated(alloc: Global, text: &str) -> Result<String, AllocError> {
    let (head, tail) = match text.split_once('{') {
        Some(parts) => parts,
        None => return String::from_str(alloc, text),
    };
    let mut whole = String::from_str(alloc, head)?;
    for part in tail.split('{') {
        match repetition(part) {
            Some((count, piece, rest)) => {
                whole.push_str(piece.repeat(alloc, count)?.as_str())?;
                whole.push_str(rest)?;
            }
            None => {
                whole.push_str("{")?;
                whole.push_str(part)?;
            }
        }
    }
    Ok(whole)
}

/// What stands as `A..B LINE`: both numbers and the line.
fn range(line: &str) -> Option<(usize, usize, &str)> {
    let (numbers, line) = line.split_once(' ')?;
    let (first, last) = numbers.split_once("..")?;
    Some((first.parse().ok()?, last.parse().ok()?, line))
}

/// The line, once for each number from the first to the last: `#` stands for the number, and `@` for how many lines there
/// are by then.
fn push_range(
    whole: &mut String,
    alloc: Global,
    (first, last): (usize, usize),
    line: &str,
) -> Result<(), AllocError> {
    for number in first..=last {
        let count = number.abs_diff(first).saturating_add(1);
        let number = format!(in alloc; "{number}")?;
        let count = format!(in alloc; "{count}")?;
        let line = line.replace(alloc, "#", number.as_str())?;
        let line = line.as_str().replace(alloc, "@", count.as_str())?;
        whole.push_str(line.as_str())?;
        whole.push_str("\n")?;
    }
    Ok(())
}

/// The text in which each line `A..B LINE` is written once for each number from A to B.
pub fn numbered(alloc: Global, text: &str) -> Result<String, AllocError> {
    let mut whole = String::new(alloc);
    for line in text.split_inclusive('\n') {
        match range(line.trim_end_matches('\n')) {
            Some((first, last, line)) => push_range(&mut whole, alloc, (first, last), line)?,
            None => whole.push_str(line)?,
        }
    }
    Ok(whole)
}
