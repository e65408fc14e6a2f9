//! The output of a run, cut down to what one function sees.
use std::alloc::Global;
use std::test::Fail;

/// The lines that are left to a pool: its own events with at most its own mark, and of any other event with its mark the
/// number and the mark.
pub fn cut_down(alloc: Global, script: &str, output: &str, pool: u32) -> Result<String, Fail> {
    let mut left = String::new(alloc);
    for (event, line) in script.lines().skip(1).zip(output.lines()) {
        let (answer, marks) = line.split_once(" !").unwrap_or((line, ""));
        let mark = mark_of(marks, pool)?;
        if is_own(event, pool)? {
            left.push_str(answer)?;
        } else if mark.is_some() {
            left.push_str(answer.split(' ').next().ok_or("no number")?)?;
        } else {
            continue;
        }
        if let Some(mask) = mark {
            write!(left, " !{pool}:{mask}")?;
        }
        left.push('\n')?;
    }
    Ok(left)
}

/// Whether an event's line is of a pool's own event.
pub fn is_own(event: &str, pool: u32) -> Result<bool, Fail> {
    let mut words = event.split(' ');
    match words.next() {
        Some("open" | "end" | "flr" | "r" | "w" | "mr" | "mw" | "serve") => {
            Ok(words.next().ok_or("no pool")?.parse::<u32>()? == pool)
        }
        _ => Ok(false),
    }
}

/// The mask in a pool's mark, if it is among these, which are parted by ` !`.
pub fn mark_of(marks: &str, pool: u32) -> Result<Option<&str>, Fail> {
    for mark in marks.split(" !") {
        if let Some((of, mask)) = mark.split_once(':') {
            if of.parse::<u32>()? == pool {
                return Ok(Some(mask));
            }
        }
    }
    Ok(None)
}
