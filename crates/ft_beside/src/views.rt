//! Sessions at whose end each client is shown.

use ft_base::OutOfMemory;
use std::alloc::Global;

// How many lines stand behind the events in a report.
const CLOSING_LINES: usize = 3;

/// The lines of a session, and behind them one for each start of a client, which shows it.
///
/// Returns `OutOfMemory` where there is no room for them.
pub fn with_views(alloc: Global, input: &[u8]) -> Result<Vec<u8>, OutOfMemory> {
    let mut lines = input.to_vec(alloc)?;
    for line in input.split(|byte| *byte == b'\n') {
        if let Some(client) = started(line) {
            lines.extend_from_slice(client.as_bytes())?;
            lines.extend_from_slice(b",\"do\":\"show\"}\n".as_slice())?;
        }
    }
    Ok(lines)
}

// What stands before the word of an event, if that is the start of a client.
fn started(line: &[u8]) -> Option<&str> {
    let text = str::from_utf8(line).ok()?;
    let (client, _) = text.split_once(",\"do\":\"start\"")?;
    Some(client)
}

/// Whether a report begins with all that the other one has before its closing lines.
pub fn is_begun_by(report: &[u8], other: &[u8]) -> bool {
    report.starts_with(before_closing(other))
}

// What a report has before its closing lines.
fn before_closing(report: &[u8]) -> &[u8] {
    let mut ends = 0;
    for place in (0..report.len()).rev() {
        if report[place] == b'\n' {
            if ends == CLOSING_LINES {
                return &report[..=place];
            }
            ends = ends.saturating_add(1);
        }
    }
    b"".as_slice()
}
