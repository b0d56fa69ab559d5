//! The words of a call.

/// Words with one space between them, from the first that was not taken yet.
#[derive(Clone, Copy, Debug)]
pub struct Words<'a> {
    rest: &'a str,
}

impl<'a> Words<'a> {
    pub fn new(text: &'a str) -> Self {
        Words { rest: text }
    }

    /// The next word, which is empty behind the last.
    pub fn word(&mut self) -> &'a str {
        let rest = self.rest;
        match rest.split_once(' ') {
            Some((word, behind)) => {
                self.rest = behind;
                word
            }
            None => {
                self.rest = "";
                rest
            }
        }
    }

    /// What is left, as one text, of which nothing is left then.
    pub fn rest(&mut self) -> &'a str {
        let rest = self.rest;
        self.rest = "";
        rest
    }

    /// Whether each word was taken.
    pub fn is_empty(&self) -> bool {
        self.rest.is_empty()
    }

    /// The next word as a number.
    pub fn number(&mut self) -> Option<u64> {
        self.word().parse::<u64>().ok()
    }

    /// The next word as a number below 2^32.
    pub fn small(&mut self) -> Option<u32> {
        self.word().parse::<u32>().ok()
    }

    /// The next word as a number below 256.
    pub fn byte(&mut self) -> Option<u8> {
        self.word().parse::<u8>().ok()
    }

    /// The next word as a number in hexadecimal digits.
    pub fn hex(&mut self) -> Option<u64> {
        u64::from_str_radix(self.word(), 16).ok()
    }

    /// The next word `LEFT:RIGHT` as two numbers.
    pub fn pair(&mut self) -> Option<(u32, u32)> {
        let (left, right) = self.word().split_once(':')?;
        Some((left.parse::<u32>().ok()?, right.parse::<u32>().ok()?))
    }
}
