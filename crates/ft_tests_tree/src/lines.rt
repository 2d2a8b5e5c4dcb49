//! Lines of a script.

use crate::edits::Kind;
use ft_base::Perspective;

/// What a step is.
#[derive(Clone, Copy)]
pub(crate) enum Verb {
    Edit(Kind),
    Acknowledge,
    Unmark,
    Compact,
    Sweep,
    Leaves,
    Table,
    Find,
    Normalise,
}

/// A step as it is written: its first word, its text and its numbers in order.
#[derive(Clone, Copy)]
pub(crate) struct Line<'a> {
    word: &'a str,
    text: &'a str,
    numbers: [u64; 5],
    count: usize,
}

impl<'a> Line<'a> {
    /// The line of that text.
    pub(crate) fn of(text: &'a str) -> Line<'a> {
        let mut line = Line {
            word: "",
            text: "",
            numbers: [0; 5],
            count: 0,
        };
        for word in text.split_whitespace() {
            line.take(word);
        }
        line
    }

    // Takes the next word. Numbers that are too many are counted.
    fn take(&mut self, word: &'a str) {
        if self.word.is_empty() {
            self.word = word;
            return;
        }
        match word.parse() {
            Ok(number) => self.take_number(number),
            Err(_) => self.text = word,
        }
    }

    fn take_number(&mut self, number: u64) {
        if self.count < 5 {
            self.numbers[self.count] = number;
        }
        self.count = self.count.saturating_add(1);
    }

    /// What the step is: None where its first word says nothing, or another number of numbers belongs to it.
    pub(crate) fn verb(&self) -> Option<Verb> {
        match (self.word, self.count) {
            ("insert", 4) => Some(Verb::Edit(Kind::Insert)),
            ("write", 1) => Some(Verb::Edit(Kind::Write)),
            ("remove", 5) => Some(Verb::Edit(Kind::Remove)),
            ("erase", 2) => Some(Verb::Edit(Kind::Erase)),
            ("acknowledge", 1) => Some(Verb::Acknowledge),
            ("unmark", 1) => Some(Verb::Unmark),
            ("compact", 1) => Some(Verb::Compact),
            ("sweep", 2) => Some(Verb::Sweep),
            ("leaves", 0) => Some(Verb::Leaves),
            ("table", 0) => Some(Verb::Table),
            ("find", 0) => Some(Verb::Find),
            ("normalise", 0) => Some(Verb::Normalise),
            _ => None,
        }
    }

    /// The text of the step.
    pub(crate) fn text(&self) -> &'a str {
        self.text
    }

    /// The `i`-th number.
    pub(crate) fn number(&self, i: usize) -> u64 {
        match self.numbers.get(i) {
            Some(number) => *number,
            None => 0,
        }
    }

    /// The perspective of which the numbers from the `i`-th on are.
    pub(crate) fn perspective(&self, i: usize) -> Perspective {
        Perspective {
            r: self.number(i),
            c: u32::try_from(self.number(i.saturating_add(1))).unwrap_or(0),
        }
    }
}
