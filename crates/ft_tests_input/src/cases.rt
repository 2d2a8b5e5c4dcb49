//! Cases, each with an input of its own, and what they come to.
//!
//! Outside of an input, lines that are empty or begin with `#` are passed over. The line `input` begins the input of a case,
//! and what ends it says the case itself. Any other line is a setting of the case; what is none, as its name, is written.

use std::alloc::Global;

/// A case: what its lines say, and what it comes to.
pub trait Case: Sized + Drop {
    /// A case of which nothing is read.
    fn new(alloc: Global) -> Self;

    /// Takes a line before the input, without its LF, and tells whether it is a setting: None where there is no room for it.
    fn set(&mut self, alloc: Global, text: &[u8]) -> Option<bool>;

    /// Whether this line, without its LF, ends the input. It takes what that says.
    fn ends(&mut self, text: &[u8]) -> bool;

    /// Adds a line with its LF to the input: None where there is no room for it.
    fn add_line(&mut self, line: &[u8]) -> Option<()>;

    /// Adds what the case comes to: None where there is no room for it.
    fn push_outcome(&self, alloc: Global, output: &mut Vec<u8>) -> Option<()>;
}

/// What the cases of these lines come to, one after another: None where there is no room for it.
pub fn outcomes<C: Case>(alloc: Global, lines: &[u8]) -> Option<Vec<u8>> {
    let mut reading = Reading::<C> {
        alloc,
        case: C::new(alloc),
        is_in_input: false,
        output: Vec::new(alloc),
    };
    for line in lines.split_inclusive(|byte| *byte == b'\n') {
        reading.take(line)?;
    }
    Some(reading.output)
}

// A line without its LF.
fn without_lf(line: &[u8]) -> &[u8] {
    match line.split_last() {
        Some((last, text)) if *last == b'\n' => text,
        _ => line,
    }
}

// The cases as far as they were read.
#[derive(Drop)]
struct Reading<C> {
    alloc: Global,
    case: C,
    is_in_input: bool,
    output: Vec<u8>,
}

impl<C: Case> Reading<C> {
    // Takes a line with its LF.
    fn take(&mut self, line: &[u8]) -> Option<()> {
        let text = without_lf(line);
        if !self.is_in_input {
            return self.take_setting(text);
        }
        if self.case.ends(text) {
            return self.finish();
        }
        self.case.add_line(line)
    }

    // Ends the case, and begins a new one.
    fn finish(&mut self) -> Option<()> {
        self.is_in_input = false;
        self.case.push_outcome(self.alloc, &mut self.output)?;
        self.case = C::new(self.alloc);
        Some(())
    }

    // Takes a line outside of an input, without its LF.
    fn take_setting(&mut self, text: &[u8]) -> Option<()> {
        if text == b"input".as_slice() {
            self.is_in_input = true;
            return Some(());
        }
        if text.is_empty() || text[0] == b'#' || self.case.set(self.alloc, text)? {
            return Some(());
        }
        self.output.extend_from_slice(text).ok()?;
        self.output.push(b'\n').ok()
    }
}
