//! Lines of a script.

use ft_base::Perspective;

/// What a step is.
#[derive(Clone, Copy)]
pub(crate) enum Verb {
    Hear,
    Edit,
    Acknowledge,
    Show,
    Find,
    Pass,
    Reconnect,
}

/// A step as it is written: its first word, its numbers in order, and its last two words that are none.
#[derive(Clone, Copy)]
pub(crate) struct Line<'a> {
    word: &'a str,
    before: &'a str,
    text: &'a str,
    numbers: [u64; 3],
    count: usize,
}

impl<'a> Line<'a> {
    /// The line of that text.
    pub(crate) fn of(text: &'a str) -> Line<'a> {
        let mut line = Line {
            word: "",
            before: "",
            text: "",
            numbers: [0; 3],
            count: 0,
        };
        for word in text.split_whitespace() {
            line.take(word);
        }
        line
    }

    // Takes the next word. Numbers that are too many are counted.
    fn take(&mut self, word: &'a str) {
        if self.word.is_empty() {
            self.word = word;
            return;
        }
        match word.parse() {
            Ok(number) => self.take_number(number),
            Err(_) => {
                self.before = self.text;
                self.text = word;
            }
        }
    }

    fn take_number(&mut self, number: u64) {
        if self.count < 3 {
            self.numbers[self.count] = number;
        }
        self.count = self.count.saturating_add(1);
    }

    /// What the step is: None where its first word says nothing, or another number of numbers belongs to it.
    pub(crate) fn verb(&self) -> Option<Verb> {
        match (self.word, self.count) {
            ("hear", 3) => Some(Verb::Hear),
            ("edit", 0) => Some(Verb::Edit),
            ("acknowledge", 1) => Some(Verb::Acknowledge),
            ("show", 0) => Some(Verb::Show),
            ("find", 0) => Some(Verb::Find),
            ("pass", 1) => Some(Verb::Pass),
            ("reconnect", 1) => Some(Verb::Reconnect),
            _ => None,
        }
    }

    /// The last word that is no number.
    pub(crate) fn text(&self) -> &'a str {
        self.text
    }

    /// The one before it.
    pub(crate) fn before(&self) -> &'a str {
        self.before
    }

    /// The `i`-th number.
    pub(crate) fn number(&self, i: usize) -> u64 {
        match self.numbers.get(i) {
            Some(number) => *number,
            None => 0,
        }
    }

    /// The perspective of which the second and the third number are.
    pub(crate) fn perspective(&self) -> Perspective {
        Perspective {
            r: self.number(1),
            c: u32::try_from(self.number(2)).unwrap_or(0),
        }
    }
}
