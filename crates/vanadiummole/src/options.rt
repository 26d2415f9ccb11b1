// What is asked for on the command line.
use crate::failure::Failure;
use std::env;

// As much as most machines have to spare: 128 MiB.
const MOST_ROOM: u64 = 16_777_216;

pub const HELP: &'static str = "\
usage: vanadiummole [--hex] [--most-room N] [FILE..]

Reads files of requests (standard input for '-' or none) and prints a line for each answer, in order:

  refused NUMBER at OFFSET
  yes | no
  alike work=N room=N
  unlike first=BITS,BITS second=BITS message=BITS work=N room=N
  neither work=N room=N

A request is a length of four bytes, highest first, and then so many bytes (docs/FORMAT.md). Where a file
ends inside a request, the bytes that are there are the last one. '-' stands for no headers, or an empty message.
Comparing is not done yet: it is refused by 7.

  --hex          print each answer's bytes as hexadecimal digits instead
  --most-room N  lend a request at most N numbers of eight bytes, if it asks for more (default 16777216, 128 MiB);
                 less where memory can't be had: what is promised is then promised for what was lent
  --help         this text

A file that can't be read, or want of memory, is told on standard error, with status 1; what was answered before stays.

  vanadiummole crates/vanadiummole/data/first.bin
";

#[derive(Drop)]
pub struct Options {
    pub files: Vec<String>,
    pub hex: bool,
    pub help: bool,
    pub most_room: u64,
}

impl Options {
    pub(crate) fn read(rt: &HostRuntime) -> Result<Options, Failure> {
        let mut options = Options {
            files: Vec::new(rt.alloc()),
            hex: false,
            help: false,
            most_room: MOST_ROOM,
        };
        let mut args = env::args(rt)?.skip(1);
        while let Some(arg) = args.next() {
            match arg.as_str() {
                "--hex" => options.hex = true,
                "--help" => options.help = true,
                "--most-room" => options.most_room = number(args.next())?,
                other if other.starts_with("--") => return Err(Failure::NoOption),
                _ => options.files.push(arg)?,
            }
        }
        if options.files.is_empty() {
            options.files.push(String::from_str(rt.alloc(), "-")?)?;
        }
        Ok(options)
    }
}

// What `--most-room` is followed by.
fn number(arg: Option<String>) -> Result<u64, Failure> {
    arg.and_then(|text| text.parse::<u64>().ok())
        .ok_or(Failure::NoNumber)
}
