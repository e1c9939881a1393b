// Follows a reader line by line, up to the first line that makes the input unreadable.
ghost use Rattle.std.specs.Prelude.{◌≡◌, ◌+◌, ◌^◌, ◌<◌, length};
ghost use Rattle.console_grammar.specs.Lent.{lists_in, SameLent};
ghost use Rattle.console_reader.specs.Fed.{ReaderReady};
ghost use Rattle.console_reader.specs.Reader.{reader_state, byte_fed};
ghost use Rattle.console_unreadable.specs.Tracker.{tracker_state, empty_tracker, is_unreadable, line_ended, byte_followed, byte_tracked, bytes_tracked, tracker_verdict, track_answer_to, track_answer, end_of_reader, found_by, TrackerReady};

use super::rule::{Rule, rule_of};
use base_outcome::refusal::Refusal;
use console_grammar::lent::Lent;
use console_grammar::progress::Part;
use console_line::form::line_of;
use console_reader::reader::Reader;

// An unreadable line: its number, from 1, and the rule that it breaks.
#[derive(Clone, Copy, Debug, PartialEq, Eq)]
pub struct UnreadableLine {
    pub number: u64,
    pub rule: Rule,
}

// The reader, the number of the line that it reads, and the first unreadable line, if one was found.
#[derive(Clone, Copy)]
pub struct Tracker {
    pub reader: Reader,
    pub line: u64,
    pub found: Option<UnreadableLine>,
}

fn is_unreadable(reader: Reader) -> bool
    ensures { result ≡ is_unreadable reader.progress.part }
{
    matches!(reader.progress.part, Part::Unreadable)
}

// The line feed of the line with the number n, which the reader has begun.
fn end_line(reader: Reader, n: u64, lent: &mut Lent) -> Tracker
    requires { ReaderReady reader lent.old.memory.now (lists_in lent.old) × (n + 1 < 2 ^ 64) }
    ensures tracked { tracker_state result lent.new.memory.now (lists_in lent.new)
        ≡ line_ended (reader_state reader lent.old.memory.now (lists_in lent.old))
        (byte_fed (reader_state reader lent.old.memory.now (lists_in lent.old)) 10) n }
    ensures same { SameLent lent.old lent.new }
{
    let said = line_of(&reader.line[..reader.length]);
    let rule = rule_of(reader.progress.part, said);
    let after = reader.feed_all(b"\n", lent);
    if is_unreadable(after) {
        return Tracker {
            reader: after,
            line: n,
            found: Some(UnreadableLine { number: n, rule }),
        };
    }
    Tracker {
        reader: after,
        line: n + 1,
        found: None,
    }
}

// One byte of the line with the number n.
#[tactic(auto, unfolding(crate::specs::Tracker::byte_followed))]
fn follow_byte(reader: Reader, n: u64, byte: u8, lent: &mut Lent) -> Tracker
    requires { ReaderReady reader lent.old.memory.now (lists_in lent.old) × (n + 1 < 2 ^ 64) }
    ensures tracked { tracker_state result lent.new.memory.now (lists_in lent.new)
        ≡ byte_followed (reader_state reader lent.old.memory.now (lists_in lent.old)) n byte }
    ensures same { SameLent lent.old lent.new }
{
    if byte == b'\n' {
        return end_line(reader, n, lent);
    }
    Tracker {
        reader: reader.feed_all(&[byte], lent),
        line: n,
        found: None,
    }
}

// What a reader at the line with the number n leaves to be found, if the input ends here.
fn found_in_reader(reader: Reader, n: u64) -> Option<UnreadableLine>
    ensures { result ≡ end_of_reader reader n }
{
    let rule = match reader.progress.part {
        _ if reader.length != 0 => Rule::LineFeed,
        Part::Start => Rule::Empty,
        _ => return None,
    };
    Some(UnreadableLine { number: n, rule })
}

impl Tracker {
    // A tracker that has read nothing.
    pub fn new() -> Tracker
        ensures { result ≡ empty_tracker }
    {
        Tracker {
            reader: Reader::new(),
            line: 1,
            found: None,
        }
    }

    // One byte; none is read after the first unreadable line.
    fn track_byte(self, byte: u8, lent: &mut Lent) -> Tracker
        requires { TrackerReady self lent.old.memory.now (lists_in lent.old) 1 }
        ensures tracked { tracker_state result lent.new.memory.now (lists_in lent.new)
            ≡ byte_tracked (tracker_state self lent.old.memory.now (lists_in lent.old)) byte }
        ensures same { SameLent lent.old lent.new }
    {
        match self.found {
            None => follow_byte(self.reader, self.line, byte, lent),
            Some(_) => self,
        }
    }

    #[tactic(auto, using(crate::specs::Laws::Tracker::tracking_steps))]
    fn track_all(self, bytes: &[u8], lent: &mut Lent) -> Tracker
        requires { TrackerReady self lent.old.memory.now (lists_in lent.old) (length bytes.now) }
        ensures tracked { tracker_state result lent.new.memory.now (lists_in lent.new)
            ≡ bytes_tracked (tracker_state self lent.old.memory.now (lists_in lent.old)) bytes.now }
        ensures same { SameLent lent.old lent.new }
    {
        let mut tracker = self;
        for byte in bytes {
            tracker = tracker.track_byte(*byte, lent);
        }
        tracker
    }

    // Numbers 1, 5 and 6; the last also for more bytes than the number of a line has room for.
    #[tactic(auto, unfolding(crate::specs::Tracker::tracker_verdict))]
    fn verdict(self, bytes: &[u8], lent: &Lent) -> Result<(), Refusal>
        ensures { result ≡ tracker_verdict self lent.now.memory.now (lists_in lent.now) bytes.now }
    {
        self.reader.verdict(lent)?;
        if u64::MAX - self.line < bytes.len() as u64 {
            return Err(Refusal::ListLength);
        }
        Ok(())
    }

    // Reads the next bytes of the input.
    #[tactic(auto, unfolding(crate::specs::Tracker::track_answer))]
    pub fn track(self, bytes: &[u8], lent: &mut Lent) -> Result<Tracker, Refusal>
        ensures tracked { track_answer_to self lent.new.memory.now (lists_in lent.new) result
            ≡ track_answer (tracker_state self lent.old.memory.now (lists_in lent.old)) bytes.now }
        ensures same { SameLent lent.old lent.new }
    {
        self.verdict(bytes, lent)?;
        Ok(self.track_all(bytes, lent))
    }

    // What is found, if the input ends here.
    pub fn found_at_end(self) -> Option<UnreadableLine>
        ensures { result ≡ found_by self }
    {
        match self.found {
            None => found_in_reader(self.reader, self.line),
            found => found,
        }
    }
}
