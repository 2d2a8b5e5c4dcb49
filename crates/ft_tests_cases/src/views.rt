//! The views of a report.

use ft_base::OutOfMemory;
use std::alloc::Global;

/// Adds how many views the report of a session has, and how many of them show what the first one shows.
///
/// Returns `OutOfMemory` where there is no room for that.
pub fn push_views(alloc: Global, report: &[u8], output: &mut Vec<u8>) -> Result<(), OutOfMemory> {
    let mut views = Views::new(alloc);
    for line in report.split_inclusive(|byte| *byte == b'\n') {
        views.take(line)?;
    }
    let count = views.count;
    let alike = views.alike;
    let line = format!(in alloc; "views {count} alike {alike}\n")?;
    output.extend_from_slice(line.as_bytes())?;
    Ok(())
}

// The views as far as the report was read.
#[derive(Drop)]
struct Views {
    alloc: Global,
    count: u64,
    alike: u64,
    is_open: bool,
    first: Vec<u8>,
    shown: Vec<u8>,
}

impl Views {
    // Before the first line.
    fn new(alloc: Global) -> Views {
        Views {
            alloc,
            count: 0,
            alike: 0,
            is_open: false,
            first: Vec::new(alloc),
            shown: Vec::new(alloc),
        }
    }

    // Takes a line: one of a client begins a view, and the first of the last lines ends one.
    fn take(&mut self, line: &[u8]) -> Result<(), OutOfMemory> {
        if line.starts_with(b"client ") {
            self.end();
            self.is_open = true;
        } else if line.starts_with(b"refused ") {
            self.end();
        } else if self.is_open {
            self.shown.extend_from_slice(line)?;
        }
        Ok(())
    }

    // Ends the view that is open, if one is, and compares it with the first.
    fn end(&mut self) {
        if !self.is_open {
            return;
        }
        self.is_open = false;
        let shown = std::mem::replace(&mut self.shown, Vec::new(self.alloc));
        if self.count == 0 {
            self.first = shown;
            self.alike = 1;
        } else if shown == self.first {
            self.alike = self.alike.saturating_add(1);
        }
        self.count = self.count.saturating_add(1);
    }
}
