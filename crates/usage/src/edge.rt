use report::print::print_report;
use std::alloc::Global;
use std::io;
use std::io::{Read, Write};
use std::test::Fail;
use streams::failure::Failure;

/// Gives two bytes, and fails then.
#[derive(Drop)]
struct Broken {
    given: bool,
}

impl Read for Broken {
    fn read(&mut self, buf: &mut [u8]) -> io::Result<usize> {
        if self.given {
            return Err(io::Error::other("the line is cut"));
        }
        self.given = true;
        let mut bytes: &[u8] = b"CP";
        bytes.read(buf)
    }
}

/// Takes the first bytes, and fails then.
#[derive(Drop)]
struct Full {
    taken: usize,
}

impl Write for Full {
    fn write(&mut self, buf: &[u8]) -> io::Result<usize> {
        if self.taken > 0 {
            return Err(io::Error::other("the disk is full"));
        }
        self.taken = buf.len().min(4);
        Ok(self.taken)
    }

    fn flush(&mut self) -> io::Result<()> {
        Ok(())
    }
}

/// What is told of an outcome.
fn told(heap: Global, outcome: Result<(), Failure>) -> Result<String, Fail> {
    match outcome {
        Ok(()) => Ok(String::from_str(heap, "nothing")?),
        Err(failure) => Ok(format!(in heap; "{failure}")?),
    }
}

/// An input that fails is told, and nothing is printed.
#[test]
fn nothing_is_printed_of_an_input_that_fails(rt: HostRuntime) -> Result<(), Fail> {
    let mut output = Vec::new(rt.alloc());
    let outcome = print_report(Broken { given: false }, &mut output);
    let told = told(rt.alloc(), outcome)?;
    assert_eq!(rt;
        told.as_str(),
        "standard input cannot be read: the line is cut"
    );
    assert!(rt; output.is_empty());
    Ok(())
}

/// An output that fails is told.
#[test]
fn an_output_that_fails_is_told(rt: HostRuntime) -> Result<(), Fail> {
    let input: &[u8] = b"";
    let outcome = print_report(input, &mut Full { taken: 0 });
    let told = told(rt.alloc(), outcome)?;
    assert_eq!(rt;
        told.as_str(),
        "standard output cannot be written: the disk is full"
    );
    Ok(())
}

/// So is lack of memory.
#[test]
fn lack_of_memory_is_told(rt: HostRuntime) -> Result<(), Fail> {
    let failure = Failure::on_reading(io::Error::from(io::ErrorKind::OutOfMemory));
    let told = told(rt.alloc(), Err(failure))?;
    assert_eq!(rt; told.as_str(), "there is not enough memory");
    Ok(())
}
