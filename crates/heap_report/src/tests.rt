// The program on inputs that give one byte a read, as a pipe may, and on inputs that fail once.
use crate::report_all;
use std::io;
use std::io::{ErrorKind, Read};
use std::test::Fail;

// The image of samples/one.hex, behind the length of its sheet.
const ONE: [u8; 169] = *b"\x30\
    \x01\0\x04\0\0\0\x70\
    \x02\0\x04\0\0\x10\0\
    \x03\0\x04\0\0\x20\0\
    \x04\0\x02\0\x08\
    \x05\0\x02\0\x18\
    \x06\0\x02\0\x01\
    \x07\0\x04\0\0\0\0\
    \x08\0\x02\x02\x0f\
    relay\xbb\xca\xfe\
    \xfe\xed\xfa\xce\0\0\x04\xe8\0\0\x20\0\xa1\x10\xe8\xed\
    \0\0\0\0\0\0\x10\0\0\0\0\0\0\0\0\x70\
    \0\0\0\0\0\0\x13\x88\0\0\0\x40\0\0\0\0\
    \0\0\0\0\0\0\0\0\0\0\0\0\0\0\0\0\
    \0\0\0\0\0\0\0\0\0\0\0\0\0\0\0\0\
    \0\0\0\0\0\0\0\0\0\0\0\0\0\0\0\0\
    \0\0\0\0\0\0\0\0\0\0\0\0\0\0\0\0";

// Gives one byte a read, and fails once, after `before` bytes.
#[derive(Drop)]
struct OneByOne {
    bytes: &'static [u8],
    before: Option<usize>,
}

impl Read for OneByOne {
    fn read(&mut self, space: &mut [u8]) -> io::Result<usize> {
        if self.before == Some(0) {
            self.before = None;
            return Err(ErrorKind::Other.into());
        }
        self.before = self.before.map(|n| n.saturating_sub(1));
        if self.bytes.is_empty() || space.is_empty() {
            return Ok(0);
        }
        space[0] = self.bytes[0];
        self.bytes = &self.bytes[1..];
        Ok(1)
    }
}

// The answer is that of the whole image, samples/one.expected, also where the read behind it fails.
#[test]
fn reads_byte_by_byte(rt: HostRuntime) -> Result<(), Fail> {
    for before in [None, Some(ONE.len())] {
        let mut input = OneByOne {
            bytes: &ONE,
            before,
        };
        let mut output = Vec::new(rt.alloc());
        report_all(&mut input, &mut output)?;
        assert_eq!(rt;
            &output[..],
            &b"heap report 1\n0 allocated 5\nchain 0 end\nfaults 0\n"[..]
        );
    }
    Ok(())
}

// A read that fails ends the part that is read: before the sheet's last byte X1 is given, and behind it X3.
#[test]
fn refuses_what_a_failed_read_cuts_short(rt: HostRuntime) -> Result<(), Fail> {
    let cases = [
        (0, b"refused 1\n"),
        (1, b"refused 1\n"),
        (48, b"refused 1\n"),
        (49, b"refused 3\n"),
        (60, b"refused 3\n"),
        (168, b"refused 3\n"),
    ];
    for (before, expected) in cases {
        let mut input = OneByOne {
            bytes: &ONE,
            before: Some(before),
        };
        let mut output = Vec::new(rt.alloc());
        report_all(&mut input, &mut output)?;
        assert_eq!(rt; &output[..], &expected[..], "after {before}");
    }
    Ok(())
}
