//! The line that says why: printable ASCII, and of a bounded length.

use arrayvec::ArrayVec;
use itoa::Buffer;

/// The most bytes of a reason.
pub const MOST_REASON: usize = 200;

/// So many characters of what was found are shown.
const SHOWN: usize = 60;

/// So many characters stand for a byte that isn't shown as it is.
const ESCAPE: usize = 4;

static HEX: [u8; 16] = *b"0123456789abcdef";

/// Why a text is refused, in one line without its end. It is printable ASCII of at most `MOST_REASON` bytes, whatever the text
/// has; what is longer is cut.
#[derive(Drop)]
pub struct Reason {
    bytes: ArrayVec<u8, MOST_REASON>,
    /// Whether memory ran out before it was found out.
    is_unknown: bool,
}

/// Whether the byte is printable ASCII, and doesn't begin an escape.
fn is_plain(c: u8) -> bool {
    b' ' <= c && c <= b'~' && c != b'\\'
}

impl Reason {
    /// No reason: what isn't refused has none.
    pub fn none() -> Reason {
        Reason {
            bytes: ArrayVec::new(),
            is_unknown: false,
        }
    }

    /// That an input has more bytes than are read of it.
    pub fn too_long(most: usize) -> Reason {
        let mut reason = Reason::none();
        reason.put("the input has more than ");
        reason.put_number(most as u64);
        reason.put(" bytes");
        reason
    }

    /// A reason that begins with the number of the line.
    pub(crate) fn at(line: u64) -> Reason {
        let mut reason = Reason::none();
        reason.put("line ");
        reason.put_number(line);
        reason.put(": ");
        reason
    }

    /// Memory ran out: what is said besides doesn't count.
    pub(crate) fn run_out(&mut self) {
        self.is_unknown = true;
    }

    /// The reason, or where memory ran out, one that says that.
    pub(crate) fn or_unknown(self, line: u64) -> Reason {
        if !self.is_unknown {
            return self;
        }
        let mut unknown = Reason::at(line);
        unknown.put("out of memory before it was found out what is wrong");
        unknown
    }

    /// The bytes of the line.
    pub fn as_bytes(&self) -> &[u8] {
        self.bytes.as_slice()
    }

    /// The line; empty where there is no reason.
    pub fn as_str(&self) -> &str {
        str::from_utf8(self.bytes.as_slice()).unwrap_or("")
    }

    fn push(&mut self, c: u8) {
        let _ = self.bytes.try_push(c);
    }

    /// Adds a byte, escaped where it isn't plain.
    fn put_byte(&mut self, c: u8) {
        if is_plain(c) {
            self.push(c);
        } else {
            self.push(b'\\');
            self.push(b'x');
            self.push(HEX[(c >> 4) as usize]);
            self.push(HEX[(c & 15) as usize]);
        }
    }

    /// Adds a text.
    pub(crate) fn put(&mut self, text: &str) {
        self.put_all(text.as_bytes());
    }

    /// Adds bytes.
    pub(crate) fn put_all(&mut self, bytes: &[u8]) {
        for c in bytes {
            self.put_byte(*c);
        }
    }

    /// Adds a number in decimal digits.
    pub(crate) fn put_number(&mut self, number: u64) {
        let mut buffer = Buffer::new();
        self.put(buffer.format(number));
    }

    /// Adds what stands in the text, between quotation marks; a long one is cut.
    pub(crate) fn put_quoted(&mut self, bytes: &[u8]) {
        let mut left = SHOWN;
        self.push(b'\'');
        for c in bytes {
            let width = if is_plain(*c) { 1 } else { ESCAPE };
            if left < width {
                self.put("'..");
                return;
            }
            left -= width;
            self.put_byte(*c);
        }
        self.push(b'\'');
    }

    /// Adds what was found where a word was expected; nothing is the end of the line.
    pub(crate) fn put_found(&mut self, word: Option<&[u8]>) {
        match word {
            None => self.put(", found the end of the line"),
            Some(b"") => self.put(", found a space too many"),
            Some(word) => {
                self.put(", found ");
                self.put_quoted(word);
            }
        }
    }

    /// Adds that this was expected as a field's value, and another was found, which may be empty.
    pub(crate) fn expected_value(&mut self, wanted: &str, found: &[u8]) {
        self.put("expected ");
        self.put(wanted);
        self.put(", found ");
        self.put_quoted(found);
    }

    /// Adds that this was expected, and what was found.
    pub(crate) fn expected(&mut self, wanted: &str, found: Option<&[u8]>) {
        self.put("expected ");
        self.put(wanted);
        self.put_found(found);
    }

    /// Adds what it is about, before what is wrong with it.
    pub(crate) fn about(&mut self, subject: &[u8]) {
        self.put_all(subject);
        self.put(": ");
    }
}
