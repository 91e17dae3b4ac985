use crate::answer::{Answer, BUFFER_LENGTH};
use crate::benches::AnyBench;
use crate::denied::Denied;
use crate::script::{Call, Request, Setup, read_request};
use crate::words::split_words;
use std::alloc::Global;

/// Where a script stands: the bench that it made last, if any, and the buffer that is lent to each call.
#[derive(Drop)]
pub struct Session {
    bench: Option<AnyBench>,
    buffer: [u8; BUFFER_LENGTH],
    heap: Global,
}

impl Session {
    /// No bench is made yet.
    pub fn new(heap: Global) -> Session {
        Session {
            bench: None,
            buffer: [0; BUFFER_LENGTH],
            heap,
        }
    }

    /// Makes a new bench. Where its policy is refused, the bench stays as it was.
    fn renew(&mut self, setup: Setup) -> Result<Answer<'_>, Denied> {
        self.bench = Some(AnyBench::new(setup)?);
        Ok(Answer::Done)
    }

    /// Makes a call, unless there is no bench yet.
    fn call(&mut self, call: &Call) -> Result<Answer<'_>, Denied> {
        let bench = self.bench.as_mut().ok_or(Denied::Unreadable)?;
        bench.perform(call, &mut self.buffer)
    }

    /// Does what a line asks for, and gives what is to be printed: nothing for a comment and for a line without words.
    pub fn answer(&mut self, line: &[u8]) -> Result<Option<Answer<'_>>, Denied> {
        if line.starts_with(b"#") {
            return Ok(None);
        }
        let words = split_words(line, self.heap)?;
        if words.is_empty() {
            return Ok(None);
        }
        let answer = match read_request(words.as_slice(), self.heap)? {
            Request::New(setup) => self.renew(setup)?,
            Request::Perform(call) => self.call(&call)?,
        };
        Ok(Some(answer))
    }
}
