//! Which mark separates the fields of a key.
ghost use Rattle.std.specs.Prelude.{◌≡◌};
ghost use Rattle.reasons_text.specs.Delimiter as spec;

/// How often each mark was counted outside quotes in the bytes read so far, and whether a quote is open.
#[derive(Clone, Copy, Debug, PartialEq, Eq)]
pub(crate) struct Marks {
    /// How many commas were counted.
    pub commas: u64,
    /// How many semicolons were counted.
    pub semicolons: u64,
    /// How many tabs were counted.
    pub tabs: u64,
    /// Whether a quote is open.
    pub is_quoted: bool,
}

impl Marks {
    // The counts before any byte.
    fn none() -> Marks
        ensures { result ≡ spec.no_marks }
    {
        Marks {
            commas: 0,
            semicolons: 0,
            tabs: 0,
            is_quoted: false,
        }
    }

    // Whether the byte ends a line in which some mark was counted.
    fn ends_line(&self, byte: u8) -> bool
        ensures { result ≡ spec.ends_line self.now byte }
    {
        let has_mark = self.commas > 0 || self.semicolons > 0 || self.tabs > 0;
        byte == b'\n' && !self.is_quoted && has_mark
    }

    // Counts the next byte, if it is a mark outside quotes.
    #[tactic(auto, unfolding(crate::specs::Delimiter::counted))]
    fn count(&mut self, byte: u8)
        ensures { self.new ≡ spec.counted self.old byte }
    {
        if byte == b'"' {
            self.is_quoted = !self.is_quoted;
        } else if self.is_quoted {} else if byte == b',' {
            self.commas = self.commas.saturating_add(1);
        } else if byte == b';' {
            self.semicolons = self.semicolons.saturating_add(1);
        } else if byte == b'\t' {
            self.tabs = self.tabs.saturating_add(1);
        }
    }

    // The mark with the highest count. If the counts are equal, a comma comes before a tab, and a tab before a
    // semicolon.
    fn chosen_mark(&self) -> u8
        ensures { result ≡ spec.chosen self.now }
    {
        if self.semicolons > self.commas && self.semicolons > self.tabs {
            b';'
        } else if self.tabs > self.commas {
            b'\t'
        } else {
            b','
        }
    }
}

// The counts of the first line that has a mark outside quotes.
fn marks_of(key_bytes: &[u8]) -> Marks
    ensures { result ≡ spec.marks_of spec.no_marks key_bytes.now }
{
    let mut marks = Marks::none();
    for byte in key_bytes {
        if marks.ends_line(*byte) {
            return marks;
        }
        marks.count(*byte);
    }
    marks
}

/// The mark that separates the fields of a key: comma, semicolon or tab. The first line with one of these marks outside
/// quotes decides. The mark that is most frequent in this line is the answer.
pub(crate) fn delimiter_of(key_bytes: &[u8]) -> u8
    ensures { result ≡ spec.delimiter_of key_bytes.now }
{
    marks_of(key_bytes).chosen_mark()
}
