// The directory of a disk after a write was refused, beside those before and after all the writes.

/// Whether a directory has a line.
fn has(rows: &[String], row: &str) -> bool {
    for one in rows {
        if one.as_str() == row {
            return true;
        }
    }
    false
}

/// The name in a line.
fn name_of(row: &str) -> &str {
    row.split('"').nth(1).unwrap_or("")
}

/// Whether a directory has a file of the name in a line.
fn has_name(rows: &[String], row: &str) -> bool {
    for one in rows {
        if name_of(one.as_str()) == name_of(row) {
            return true;
        }
    }
    false
}

/// Whether a line is that of a file which isn't closed.
fn is_unclosed(row: &str) -> bool {
    let kind = row.split('"').last().unwrap_or("");
    kind.trim().starts_with('*')
}

/// Whether a line may be there: it tells the free blocks, or a file as before or as after, or one that was begun.
fn may_be(before: &[String], row: &str, after: &[String]) -> bool {
    row.ends_with(" FREE.")
        || has(before, row)
        || has(after, row)
        || is_unclosed(row) && !has_name(before, row)
}

/// Whether a line must be there: it tells a file that is the same before and after.
fn must_be(row: &str, after: &[String]) -> bool {
    !row.ends_with(" FREE.") && has(after, row)
}

/// Whether each file of a directory is as before or as after, or was begun and isn't closed; and whether those are there that are
/// the same before and after.
pub fn are_between(before: &[String], now: &[String], after: &[String]) -> bool {
    for row in now {
        if !may_be(before, row.as_str(), after) {
            return false;
        }
    }
    for row in before {
        if must_be(row.as_str(), after) && !has(now, row.as_str()) {
            return false;
        }
    }
    true
}
