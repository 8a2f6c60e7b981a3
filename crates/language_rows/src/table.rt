// The table of the rows. A line is `reads SOURCE ANSWER`, `races SOURCE ANSWER`, `weakens SOURCE ANSWER`, `replays SOURCE LOG
// ANSWER` or `adds SOURCE ANSWER | LINE`, where the lines of an answer stand following each other with `; ` between. The last
// reads the source with that line behind it.

use crate::answered::{
    content, list_races, list_weak_locks, read_longer, read_source, replay_log, text_in,
};
use rr_base::{Shelf, ShelfEnd};
use std::alloc::{AllocError, Global};

/// What going over the table comes to.
#[derive(Drop)]
pub enum Checked {
    AllHold,
    /// The lines of the rows that don't hold, each with the answer that was found.
    Differ(String),
}

// The lines of an answer on one.
fn one_line(alloc: Global, text: &str) -> Result<String, AllocError> {
    let mut line = String::new(alloc);
    for (at, piece) in text.lines().enumerate() {
        if at > 0 {
            line.push_str("; ")?;
        }
        line.push_str(piece)?;
    }
    Ok(line)
}

fn first_word(text: &str) -> (&str, &str) {
    text.split_once(' ').unwrap_or((text, ""))
}

// The line that a row should have.
fn right_line<S: Shelf>(alloc: Global, shelf: &mut S, line: &str) -> Result<String, ShelfEnd> {
    let (word, rest) = first_word(line);
    let (name, rest) = first_word(rest);
    let (log, _) = first_word(rest);
    let (_, added) = rest.split_once(" | ").unwrap_or((rest, ""));
    let answer = match word {
        "reads" => read_source(alloc, shelf, name)?,
        "adds" => read_longer(alloc, shelf, name, added)?,
        "races" => list_races(alloc, shelf, name)?,
        "weakens" => list_weak_locks(alloc, shelf, name)?,
        "replays" => replay_log(alloc, shelf, name, log)?,
        _ => return Ok(format!(in alloc; "no such word: {word}")?),
    };
    let answer = one_line(alloc, text_in(&answer))?;
    match word {
        "adds" => Ok(format!(in alloc; "{word} {name} {answer} | {added}")?),
        "replays" => Ok(format!(in alloc; "{word} {name} {log} {answer}")?),
        _ => Ok(format!(in alloc; "{word} {name} {answer}")?),
    }
}

/// Goes over the table.
pub fn check_table<S: Shelf>(alloc: Global, shelf: &mut S) -> Result<Checked, ShelfEnd> {
    let table = content(alloc, shelf, "rows")?;
    let mut differing = String::new(alloc);
    for line in text_in(&table).lines() {
        let right = right_line(alloc, shelf, line)?;
        if right.as_str() != line {
            differing.push_str(&right)?;
            differing.push('\n')?;
        }
    }
    if differing.is_empty() {
        Ok(Checked::AllHold)
    } else {
        Ok(Checked::Differ(differing))
    }
}
