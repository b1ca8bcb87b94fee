//! Answers in words.

ghost use Rattle.std.specs.Prelude.{◌≡◌, ◌<◌, ◌↔◌, length, All, IfSome, IsTrue};

use certcheck::{Answer, Reach, Table, steps_of_rows};
use std::alloc::{AllocError, Global};

/// `No`, `Any` or a number.
fn reach_of(word: &str) -> Option<Reach> {
    match word {
        "No" => Some(Reach::No),
        "Any" => Some(Reach::Any),
        _ => match word.parse::<u32>() {
            Ok(number) => Some(Reach::UpTo(number)),
            Err(_) => None,
        },
    }
}

/// A row, with commas between its entries; `-` is one of no entry.
fn row_of(alloc: Global, word: &str) -> Result<Option<Vec<Reach>>, AllocError> {
    let mut row = Vec::new(alloc);
    if word == "-" {
        return Ok(Some(row));
    }
    for entry in word.split(',') {
        match reach_of(entry) {
            Some(reach) => row.push(reach)?,
            None => return Ok(None),
        }
    }
    Ok(Some(row))
}

fn are_wide(rows: &[Vec<Reach>], width: usize) -> bool
    ensures { IsTrue result ↔ All (λ r. length r.items ≡ width) rows.now }
{
    rows.iter().all(|row| row.len() == width)
}

/// A table, a word for each row; none if rows differ in length.
pub fn table_of(alloc: Global, words: &[&str]) -> Result<Option<Table>, AllocError> {
    let mut rows = Vec::new(alloc);
    for word in words {
        match row_of(alloc, word)? {
            Some(row) => rows.push(row)?,
            None => return Ok(None),
        }
    }
    let width = match rows.first() {
        Some(row) => row.len(),
        None => 0,
    };
    if !are_wide(&rows, width) {
        return Ok(None);
    }
    let steps = steps_of_rows(alloc, width, &rows)?;
    Ok(Some(Table::Rows { width, steps }))
}

fn positions_of(alloc: Global, words: &[&str]) -> Result<Option<Vec<usize>>, AllocError> {
    let mut positions = Vec::new(alloc);
    for word in words {
        match word.parse::<usize>() {
            Ok(position) => positions.push(position)?,
            Err(_) => return Ok(None),
        }
    }
    Ok(Some(positions))
}

/// The place of the word `to`.
fn place_of_to(words: &[&str]) -> Option<usize>
    ensures { IfSome result (λ place. place < length words.now) }
{
    for (place, word) in words.iter().enumerate() {
        if *word == "to" {
            return Some(place);
        }
    }
    None
}

/// A path: its positions, `to`, the anchor and the table.
pub fn path_of(alloc: Global, words: &[&str]) -> Result<Option<Answer>, AllocError> {
    let Some(place) = place_of_to(words) else {
        return Ok(None);
    };
    let Some(positions) = positions_of(alloc, &words[..place])? else {
        return Ok(None);
    };
    let Some((word, rows)) = words[place + 1..].split_first() else {
        return Ok(None);
    };
    let Ok(anchor) = word.parse::<usize>() else {
        return Ok(None);
    };
    let Some(table) = table_of(alloc, rows)? else {
        return Ok(None);
    };
    Ok(Some(Answer::Path {
        positions,
        anchor,
        table,
    }))
}
