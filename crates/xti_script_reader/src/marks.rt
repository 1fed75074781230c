//! The lines `+++` before a head and after it.

ghost use Rattle.std.specs.Prelude.{◌≡◌, ◌≤◌, ◌+◌, Some, None, length, IfSome, IfNone};
ghost use Rattle.xti_words.specs.Texts.{lines_of};
ghost use Rattle.xti_script_reader.specs.Grammar.{is_mark};
ghost use Rattle.xti_script_reader.specs.Marks.{AreParts};
ghost use Rattle.xti_script_reader.specs.Reading.{to_mark};

use xti_words::first_line;

/// Whether the line is `+++`.
pub(crate) fn is_mark(line: &[u8]) -> bool
    ensures { result ≡ is_mark line.now }
{
    line == b"+++".as_slice()
}

/// A text around its first line `+++`: the head before it, how many lines that has, and the rest after it.
#[derive(Clone, Copy)]
pub(crate) struct Parts<'a> {
    pub(crate) head: &'a [u8],
    pub(crate) lines: u64,
    pub(crate) rest: &'a [u8],
}

/// The text around its first line `+++`; `None` where there is none.
pub(crate) fn split_at_mark(text: &[u8]) -> Option<Parts<'_>>
    ensures some { IfSome result (λ parts. AreParts text.now parts) }
    ensures none { IfNone result (to_mark (lines_of text.now) ≡ None) }
    ensures room { IfSome result (λ parts. parts.lines + length parts.rest.now ≤ length text.now) }
{
    let mut rest = text;
    let mut lines = 0;
    while !rest.is_empty() {
        let (line, behind) = first_line(rest);
        if is_mark(line) {
            let head = &text[..text.len() - rest.len()];
            return Some(Parts {
                head,
                lines,
                rest: behind,
            });
        }
        rest = behind;
        lines += 1;
    }
    None
}
