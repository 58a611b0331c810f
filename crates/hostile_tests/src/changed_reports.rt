// A report with one word changed, and where the first line at fault stands then. What is wanted follows from the rules
// of a report, not from what an audit answers.
//
// A line of a block that names no event is tested by the script, the files, the log and the lines before it alone:
// changed, it is itself the first at fault. What names an event (the line of a load, the number of a `published` line)
// serves earlier searches too, so the fault may show before it. An event of the log is told by the line that names it,
// which stands before the log; a changed withdrawal may also make a later one illegal.
use std::alloc::Global;
use std::test::Fail;

// A line of a report, its number, and its words.
#[derive(Drop)]
pub(crate) struct Row<'a> {
    number: u64,
    words: Vec<&'a str>,
}

// The lines between which the first at fault stands. The report holds where the last is 0.
#[derive(Clone, Copy, Drop)]
pub(crate) struct Bounds {
    pub(crate) least: u64,
    pub(crate) most: u64,
}

const HOLDS: Bounds = Bounds { least: 0, most: 0 };

fn words_of<'a>(alloc: Global, line: &'a str) -> Result<Vec<&'a str>, Fail> {
    let mut words = Vec::new(alloc);
    for word in line.split(' ') {
        words.push(word)?;
    }
    Ok(words)
}

pub(crate) fn rows_of<'a>(alloc: Global, report: &'a str) -> Result<Vec<Row<'a>>, Fail> {
    let mut rows = Vec::new(alloc);
    let mut number = 0u64;
    for line in report.lines() {
        number = number.saturating_add(1);
        let words = words_of(alloc, line)?;
        rows.push(Row { number, words })?;
    }
    Ok(rows)
}

// The word at this place, empty past the end.
fn word_at<'a>(row: &Row<'a>, index: usize) -> &'a str {
    if index < row.words.len() {
        return row.words[index];
    }
    ""
}

// How many events the log has, as it says.
pub(crate) fn events_of(rows: &[Row<'_>]) -> Result<u64, Fail> {
    for row in rows {
        if word_at(row, 0) == "log" {
            if let Ok(events) = word_at(row, 1).parse::<u64>() {
                return Ok(events);
            }
        }
    }
    Err("a report without a log".into())
}

// The number after this one, as it is written, where it is a number.
fn raised(alloc: Global, word: &str) -> Result<Option<String>, Fail> {
    match word.parse::<u64>() {
        Ok(number) => {
            let next = number.saturating_add(1);
            Ok(Some(format!(in alloc; "{next}")?))
        }
        Err(_) => Ok(None),
    }
}

// A map with another first place.
fn raised_map(alloc: Global, first: &str, rest: &str) -> Result<Option<String>, Fail> {
    match raised(alloc, first)? {
        Some(next) => Ok(Some(format!(in alloc; "{next},{rest}")?)),
        None => Ok(None),
    }
}

// What is put in the place of a word: another name, a front past the log, or the next number. None of a word that is
// neither.
fn changed_word(
    alloc: Global,
    before: &str,
    word: &str,
    events: u64,
) -> Result<Option<String>, Fail> {
    if word.split_once('.').is_some() {
        return Ok(Some(format!(in alloc; "{word}x")?));
    }
    if before == "front" || before == "Unknown" {
        let past = events.saturating_add(1);
        return Ok(Some(format!(in alloc; "{past}")?));
    }
    if let Some((first, rest)) = word.split_once(',') {
        return raised_map(alloc, first, rest);
    }
    raised(alloc, word)
}

// The line of the log that withdraws this number, if it stands after this line; else this line.
fn later_withdrawal(rows: &[Row<'_>], number: u64, target: &str) -> u64 {
    for row in rows {
        if row.number > number && word_at(row, 0) == "event" && word_at(row, 4) == target {
            if word_at(row, 2) == "withdraw" {
                return row.number;
            }
        }
    }
    number
}

// Where the first line at fault stands if this word becomes that one.
fn bounds_of(rows: &[Row<'_>], row: &Row<'_>, index: usize, word: &str) -> Bounds {
    let number = row.number;
    let here = Bounds {
        least: number,
        most: number,
    };
    match (word_at(row, 0), index) {
        // how many rows were looked at is free
        ("hits", 3) => HOLDS,
        // an event more than there is
        ("log", _) => Bounds {
            least: rows.len() as u64,
            most: rows.len() as u64,
        },
        ("load", _) | ("published", 1) => Bounds { least: 2, ..here },
        ("event", 1) => here,
        ("event", 4) if word_at(row, 2) == "withdraw" => Bounds {
            least: 2,
            most: later_withdrawal(rows, number, word),
        },
        ("event", _) => Bounds { least: 2, ..here },
        _ => here,
    }
}

// Appends a line, with this word in the place of the one at the index.
fn push_row(text: &mut String, row: &Row<'_>, changed: usize, word: &str) -> Result<(), Fail> {
    for (index, old) in row.words.iter().enumerate() {
        if index > 0 {
            text.push(' ')?;
        }
        text.push_str(if index == changed { word } else { old })?;
    }
    text.push('\n')?;
    Ok(())
}

// The report with another word in this line.
fn report_with(
    alloc: Global,
    rows: &[Row<'_>],
    number: u64,
    changed: usize,
    word: &str,
) -> Result<String, Fail> {
    let mut text = String::new(alloc);
    for row in rows {
        let place = if row.number == number {
            changed
        } else {
            usize::MAX
        };
        push_row(&mut text, row, place, word)?;
    }
    Ok(text)
}

// A changed report.
#[derive(Drop)]
pub(crate) struct Changed {
    pub(crate) text: String,
    pub(crate) bounds: Bounds,
}

// Each change of one word of a line.
fn add_changes(
    alloc: Global,
    rows: &[Row<'_>],
    row: &Row<'_>,
    events: u64,
    changes: &mut Vec<Changed>,
) -> Result<(), Fail> {
    let mut before = "";
    for (index, old) in row.words.iter().enumerate() {
        if let Some(word) = changed_word(alloc, before, old, events)? {
            let text = report_with(alloc, rows, row.number, index, &word)?;
            let bounds = bounds_of(rows, row, index, &word);
            changes.push(Changed { text, bounds })?;
        }
        before = old;
    }
    Ok(())
}

// Each change of one number or name of a report, but for those of its first line.
pub(crate) fn changes_of(alloc: Global, report: &str) -> Result<Vec<Changed>, Fail> {
    let rows = rows_of(alloc, report)?;
    let events = events_of(&rows)?;
    let mut changes = Vec::new(alloc);
    for row in &rows {
        if row.number > 1 {
            add_changes(alloc, &rows, row, events, &mut changes)?;
        }
    }
    Ok(changes)
}

// The report cut before each of its lines, which is then the first at fault.
pub(crate) fn cuts_of(alloc: Global, report: &str) -> Result<Vec<Changed>, Fail> {
    let rows = rows_of(alloc, report)?;
    let mut cuts = Vec::new(alloc);
    let mut front = String::new(alloc);
    for row in &rows {
        let bounds = Bounds {
            least: row.number,
            most: row.number,
        };
        let text = front.clone()?;
        cuts.push(Changed { text, bounds })?;
        push_row(&mut front, row, usize::MAX, "")?;
    }
    Ok(cuts)
}
