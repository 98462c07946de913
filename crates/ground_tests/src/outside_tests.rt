use outside::{
    Argv, Files, MemFiles, MemSink, Name, ReadError, Refusal, SoundFiles, SoundSink, StdFiles,
    StdSink, WriteError, read_whole, send, write_whole,
};
use std::alloc::{AllocError, Global};
use std::cell::RefCell;
use std::fmt::Display;
use std::io::ErrorKind;
use std::test::Fail;
use std::{env, fs, io, process};

// A file as the constructors take it.
fn stored(alloc: Global, name: &str, bytes: &[u8]) -> Result<(Name, Vec<u8>), AllocError> {
    Ok((Name::new(alloc, name.as_bytes())?, bytes.to_vec(alloc)?))
}

// Writes a file in two pieces and reads it whole.
fn written_and_read<F: Files>(
    alloc: Global,
    files: &mut F,
    name: &str,
) -> Result<Vec<u8>, ReadError> {
    files.create(name)?;
    files.append(name, b"one ")?;
    files.append(name, b"two")?;
    read_whole(alloc, files, name, 7)
}

#[test]
fn whole_file_at_its_limit(rt: HostRuntime) -> Result<(), Fail> {
    let alloc = rt.alloc();
    let held = vec![in alloc;
        stored(alloc, "four", b"abcd")?,
        stored(alloc, "five", b"abcde")?,
    ]?;
    let mut files = MemFiles::new(alloc, held, Vec::new(alloc))?;
    for (name, want) in [
        ("four", Ok(4)),
        ("five", Err(ReadError::TooLong)),
        ("six", Err(ReadError::ReadFault)),
    ] {
        let answer = read_whole(alloc, &mut files, name, 4).map(|bytes| bytes.len());
        assert!(rt; answer == want);
    }
    Ok(())
}

#[test]
fn send_to_a_sink_whose_first_call_fails(rt: HostRuntime) -> Result<(), Fail> {
    let mut out = MemSink::new(rt.alloc(), vec![in rt.alloc(); 1]?)?;
    assert!(rt; send(&mut out, b"certified") == Err(WriteError::WriteFault));
    assert!(rt; send(&mut out, b"certified") == Ok(()));
    assert!(rt; out.bytes() == b"certified".as_slice());
    Ok(())
}

// The calls on a file are its create and then its appends, of which the first takes the whole piece.
#[test]
fn whole_file_written(rt: HostRuntime) -> Result<(), Fail> {
    let alloc = rt.alloc();
    for (failing, want, held) in [
        (1, Err(WriteError::WriteFault), b"before".as_slice()),
        (2, Err(WriteError::WriteFault), b"".as_slice()),
        (3, Ok(()), b"written".as_slice()),
    ] {
        let there = vec![in alloc; stored(alloc, "out", b"before")?]?;
        let fails = vec![in alloc; (Name::new(alloc, b"out")?, failing)]?;
        let mut files = MemFiles::new(alloc, there, fails)?;
        assert!(rt; write_whole(&mut files, "out", b"written") == want);
        assert!(rt; files.bytes("out") == Some(held));
    }
    Ok(())
}

#[test]
fn words_and_names_are_kept(rt: HostRuntime) -> Result<(), Fail> {
    for text in [
        b"".as_slice(),
        b"n\xff1",
        b"0123456789012345678901",
        b"01234567890123456789012",
        b"012345678901234567890123",
        b"a name that is as long as a net in a hierarchy, which has the names of its blocks",
    ] {
        let name = Name::new(rt.alloc(), text)?;
        assert!(rt; name.bytes() == text);
    }
    let mut words = Argv::new(rt.alloc())?;
    words.push("check")?;
    assert!(rt; words.count() == 1);
    assert!(rt; words.word(0) == "check");
    Ok(())
}

#[test]
fn files_in_memory(rt: HostRuntime) -> Result<(), Fail> {
    let alloc = rt.alloc();
    let failing = vec![in alloc; (Name::new(alloc, b"b")?, 2)]?;
    let mut files = MemFiles::new(alloc, Vec::new(alloc), failing)?;
    let bytes = written_and_read(alloc, &mut files, "a")?;
    assert!(rt; bytes.as_slice() == b"one two".as_slice());
    assert!(rt; files.bytes("a") == Some(b"one two".as_slice()));
    let refused = written_and_read(alloc, &mut files, "b");
    assert!(rt; refused.err() == Some(ReadError::ReadFault));
    assert!(rt; files.bytes("b") == Some(b"".as_slice()));
    Ok(())
}

#[test]
fn sound_files_and_sink(rt: HostRuntime) -> Result<(), Fail> {
    let alloc = rt.alloc();
    let mut files = SoundFiles::new(alloc, vec![in alloc; stored(alloc, "a", b"xy")?]?)?;
    assert!(rt; files.holds("a"));
    assert!(rt; read_whole(alloc, &mut files, "b", 2)?.len() == 0);
    let bytes = written_and_read(alloc, &mut files, "b")?;
    assert!(rt; files.bytes("b") == Some(bytes.as_slice()));
    let mut out = SoundSink::new(alloc)?;
    send(&mut out, &bytes)?;
    assert!(rt; out.bytes() == b"one two".as_slice());
    Ok(())
}

// Reads three bytes of a file from a place on.
fn three_bytes<F: Files>(files: &mut F, name: &str, at: u64) -> Result<[u8; 3], Refusal> {
    let mut bytes = [0; 3];
    let count = files.read_at(name, at, &mut bytes)?;
    if count < 3 {
        return Err(Refusal::Failed);
    }
    Ok(bytes)
}

// Reads two files in turn, so that each is opened while the other one is.
fn read_in_turn<F: Files>(
    alloc: Global,
    files: &mut F,
    first: &str,
    second: &str,
) -> Result<Vec<u8>, Fail> {
    files.create(second)?;
    files.append(second, b"three four")?;
    let mut bytes = Vec::new(alloc);
    for (name, at) in [
        (first, 0),
        (second, 3),
        (first, 3),
        (second, 6),
        (second, 0),
    ] {
        bytes.extend_from_slice(&three_bytes(files, name, at)?)?;
    }
    Ok(bytes)
}

// What real files in a folder answer: a file that is written twice and read, two files that are read in turn, and the
// folder taken for a file.
fn try_real_files(
    rt: HostRuntime,
    alloc: Global,
    folder: &str,
) -> Result<(Vec<u8>, Vec<u8>, bool), Fail> {
    let mut files = StdFiles::new(alloc, rt);
    let path = format!(in alloc; "{folder}/file")?;
    let other = format!(in alloc; "{folder}/other")?;
    written_and_read(alloc, &mut files, path.as_str())?;
    let bytes = written_and_read(alloc, &mut files, path.as_str())?;
    let in_turn = read_in_turn(alloc, &mut files, path.as_str(), other.as_str())?;
    let refused = files.create(folder) == Err(Refusal::Failed)
        && files.append(folder, b"x") == Err(Refusal::Failed)
        && files.read_at(folder, 0, &mut [0]) == Err(Refusal::Failed);
    Ok((bytes, in_turn, refused))
}

#[test]
fn real_files(rt: HostRuntime) -> Result<(), Fail> {
    let alloc = rt.alloc();
    let place = env::temp_dir(&rt)?;
    let number = process::id(rt.process());
    let folder = format!(in alloc; "{}/outside-{number}", place.display())?;
    fs::create_dir(&rt, &folder)?;
    let answers = try_real_files(rt, alloc, folder.as_str());
    let removed = fs::remove_dir_all(&rt, &folder);
    let (bytes, in_turn, refused) = answers?;
    removed?;
    assert!(rt; bytes.as_slice() == b"one two".as_slice());
    assert!(rt; in_turn.as_slice() == b"oneee  twfouthr".as_slice());
    assert!(rt; refused);
    Ok(())
}

// An output that takes this many bytes of each piece, or fails, and keeps what it took.
#[derive(Drop)]
struct Output {
    takes: Option<usize>,
    taken: RefCell<Vec<u8>>,
}

impl Output {
    fn new(alloc: Global, takes: Option<usize>) -> Output {
        Output {
            takes,
            taken: RefCell::new(Vec::new(alloc)),
        }
    }

    fn has_taken(&self, bytes: &[u8]) -> bool {
        match self.taken.try_borrow() {
            Ok(taken) => taken.as_slice() == bytes,
            Err(_) => false,
        }
    }
}

impl Print for Output {
    fn print<D: Display + Drop>(&self, _value: D) -> io::Result<()> {
        Err(ErrorKind::Unsupported.into())
    }

    fn println<D: Display + Drop>(&self, _value: D) -> io::Result<()> {
        Err(ErrorKind::Unsupported.into())
    }

    fn write_all(&self, _bytes: &[u8]) -> io::Result<()> {
        Err(ErrorKind::Unsupported.into())
    }

    fn write_some(&self, bytes: &[u8]) -> io::Result<usize> {
        let Some(takes) = self.takes else {
            return Err(ErrorKind::BrokenPipe.into());
        };
        let Ok(mut taken) = self.taken.try_borrow_mut() else {
            return Err(ErrorKind::ResourceBusy.into());
        };
        let count = takes.min(bytes.len());
        taken.extend_from_slice(&bytes[..count])?;
        Ok(count)
    }
}

// Whatever a system takes of each piece, it is given every byte once, or the sink answers a fault.
#[test]
fn standard_output(rt: HostRuntime) -> Result<(), Fail> {
    let alloc = rt.alloc();
    for (takes, want, taken) in [
        (Some(2), Ok(()), b"written".as_slice()),
        (Some(3), Ok(()), b"written".as_slice()),
        (Some(9), Ok(()), b"written".as_slice()),
        (Some(0), Err(WriteError::WriteFault), b"".as_slice()),
        (None, Err(WriteError::WriteFault), b"".as_slice()),
    ] {
        let output = Output::new(alloc, takes);
        assert!(rt; send(&mut StdSink::new(&output), b"written") == want);
        assert!(rt; output.has_taken(taken));
    }
    send(&mut StdSink::new(rt), b"written\n")?;
    Ok(())
}
