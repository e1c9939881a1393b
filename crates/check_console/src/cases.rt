// The stream, byte by byte: the bytes of an input go to the reader, and a line that ends an input to its answer.
use super::answer;
use console_grammar::lent::Lent;
use console_reader::reader::Reader;

// A line that may end the input, as far as it was read.
#[derive(Clone, Copy)]
enum Marker {
    // So many bytes of `=====`.
    Equals(usize),
    // All of `====-`.
    Unended,
}

// One input. Held back are a line feed, and the bytes of a line that may end the input.
#[derive(Clone, Copy)]
pub(crate) struct Case {
    reader: Reader,
    // A line feed that was not fed yet.
    line_feed: bool,
    // The line so far, where it may end the input.
    marker: Option<Marker>,
}

// Slices with the lengths that `main` gives them are not refused.
fn feed(reader: Reader, bytes: &[u8], lent: &mut Lent) -> Reader {
    reader.feed(bytes, lent).unwrap_or(reader)
}

impl Marker {
    // The line with one byte more, where it may still end the input.
    fn next(self, byte: u8) -> Option<Marker> {
        match (self, byte) {
            (Marker::Equals(n), b'=') if n < 5 => Some(Marker::Equals(n + 1)),
            (Marker::Equals(4), b'-') => Some(Marker::Unended),
            _ => None,
        }
    }

    // Whether a line feed here ends the input.
    fn is_whole(self) -> bool {
        matches!(self, Marker::Equals(5) | Marker::Unended)
    }

    // No more than five bytes are counted, but the type of the count does not say so.
    fn feed_to(self, reader: Reader, lent: &mut Lent) -> Reader {
        match self {
            Marker::Equals(n) => feed(reader, &b"====="[..n.min(5)], lent),
            Marker::Unended => feed(reader, b"====-", lent),
        }
    }
}

impl Case {
    pub(crate) fn new() -> Case {
        Case {
            reader: Reader::new(),
            line_feed: false,
            marker: Some(Marker::Equals(0)),
        }
    }

    fn feed_line_feed(self, lent: &mut Lent) -> Reader {
        if self.line_feed {
            return feed(self.reader, b"\n", lent);
        }
        self.reader
    }

    // The end of an input: its answer, and the start of the next one. The line feed before `====-` is not part of the input.
    fn end(self, output: &impl Print, marker: Marker, lent: &mut Lent) -> Case {
        let reader = match marker {
            Marker::Equals(_) => self.feed_line_feed(lent),
            Marker::Unended => self.reader,
        };
        answer::write(output, reader, lent);
        Case::new()
    }

    // A byte that does not end the input: what was held back goes to the reader before it.
    fn go_on(self, byte: u8, lent: &mut Lent) -> Case {
        let mut reader = self.feed_line_feed(lent);
        if let Some(marker) = self.marker {
            reader = marker.feed_to(reader, lent);
        }
        if byte == b'\n' {
            return Case {
                reader,
                line_feed: true,
                marker: Some(Marker::Equals(0)),
            };
        }
        Case {
            reader: feed(reader, &[byte], lent),
            line_feed: false,
            marker: None,
        }
    }

    fn take_byte(self, output: &impl Print, byte: u8, lent: &mut Lent) -> Case {
        let Some(marker) = self.marker else {
            return self.go_on(byte, lent);
        };
        if byte == b'\n' && marker.is_whole() {
            return self.end(output, marker, lent);
        }
        match marker.next(byte) {
            None => self.go_on(byte, lent),
            next => Case {
                marker: next,
                ..self
            },
        }
    }

    pub(crate) fn take_bytes(self, output: &impl Print, bytes: &[u8], lent: &mut Lent) -> Case {
        let mut case = self;
        for byte in bytes {
            case = case.take_byte(output, *byte, lent);
        }
        case
    }
}
