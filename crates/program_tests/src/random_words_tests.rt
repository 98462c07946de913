//! Lists of words at random: what `read` makes of them is what a plain reading of the rule makes.
use crate::same::same_at;
use command_words::{Command, WordsError, read};
use outside::Argv;
use std::process::Abort;

/// How many lists are read.
const LISTS: usize = 1000;

/// How many of them are a command, as another program counted them.
const COMMANDS: usize = 436;

/// Words of `check`, which are a command as they stand.
static BASES: [&[&str]; 4] = [
    &["--netlist", "a", "--certificate", "b"],
    &["--certificate", "b=1", "--netlist", "a"],
    &["--netlist=a", "--certificate", "b"],
    &["--certificate==", "--netlist=a"],
];

/// Words that take the place of others.
static WORDS: [&str; 16] = [
    "--netlist",
    "--certificate",
    "--netlist=a",
    "--certificate=b-",
    "--netlist=",
    "--certificate=-",
    "--report",
    "--net",
    "-netlist",
    "a",
    "c=d",
    "=",
    "-",
    "",
    "--",
    "a\nb",
];

/// A plain sequence of numbers.
#[derive(Drop)]
struct Numbers {
    state: u64,
}

impl Numbers {
    /// The next number, below 32768.
    fn next(&mut self) -> u64 {
        self.state = (self.state % 2_147_483_648 * 1_103_515_245 + 12_345) % 2_147_483_648;
        self.state / 65_536
    }
}

/// The words of a list: those of a base, some of them replaced, and perhaps one word more.
fn list_at(rt: &(impl Abort + AllocGlobal), numbers: &mut Numbers) -> Vec<&'static str> {
    let mut words = Vec::new(rt.alloc());
    for word in BASES[(numbers.next() % 4) as usize] {
        let other = WORDS[(numbers.next() % 16) as usize];
        let replaced = numbers.next() % 4 == 0;
        words
            .push(if replaced { other } else { *word })
            .expect(rt, "memory");
    }
    if numbers.next() % 16 == 0 {
        words
            .push(WORDS[(numbers.next() % 16) as usize])
            .expect(rt, "memory");
    }
    words
}

/// An option of `check`.
#[derive(Clone, Copy)]
enum Which {
    Netlist,
    Certificate,
}

/// What the words set so far, and the option that waits for its value.
#[derive(Clone, Copy)]
struct Found<'a> {
    netlist: Option<&'a str>,
    certificate: Option<&'a str>,
    waits: Option<Which>,
}

impl<'a> Found<'a> {
    /// Sets an option, unless the value may not stand or the option is set.
    fn set(&mut self, which: Which, value: &'a str) -> bool {
        let place = match which {
            Which::Netlist => &mut self.netlist,
            Which::Certificate => &mut self.certificate,
        };
        if place.is_some() || value == "" || value.starts_with("-") || value.contains("\n") {
            return false;
        }
        *place = Some(value);
        true
    }

    /// Reads a word where an option may stand.
    fn option(&mut self, word: &'a str) -> bool {
        if word == "--netlist" {
            self.waits = Some(Which::Netlist);
            return true;
        }
        if word == "--certificate" {
            self.waits = Some(Which::Certificate);
            return true;
        }
        if let Some(value) = word.strip_prefix("--netlist=") {
            return self.set(Which::Netlist, value);
        }
        if let Some(value) = word.strip_prefix("--certificate=") {
            return self.set(Which::Certificate, value);
        }
        false
    }

    /// Reads the next word.
    fn step(&mut self, word: &'a str) -> bool {
        match self.waits {
            Some(which) => {
                self.waits = None;
                self.set(which, word)
            }
            None => self.option(word),
        }
    }
}

/// The netlist and the certificate that the words name, each once, where they name nothing else.
fn plain<'a>(words: &[&'a str]) -> Option<(&'a str, &'a str)> {
    let mut found = Found {
        netlist: None,
        certificate: None,
        waits: None,
    };
    for word in words {
        if !found.step(*word) {
            return None;
        }
    }
    if found.waits.is_some() {
        return None;
    }
    Some((found.netlist?, found.certificate?))
}

/// The words of `check` with these options.
fn check(rt: &(impl Abort + AllocGlobal), options: &[&str]) -> Argv {
    let mut argv = Argv::new(rt.alloc()).expect(rt, "memory");
    argv.push("check").expect(rt, "memory");
    for option in options {
        argv.push(*option).expect(rt, "memory");
    }
    argv
}

/// The netlist and the certificate of what is read.
fn named<'a>(
    rt: &impl Abort,
    answer: &'a Result<Command, WordsError>,
) -> Option<(&'a str, &'a str)> {
    match answer {
        Ok(
            Command::Check {
                netlist,
                certificate,
            },
        ) => Some((netlist.as_str(), certificate.as_str())),
        Err(WordsError::Usage) => None,
        _ => panic!(rt; "another answer"),
    }
}

/// Compares what is read of a list of words with their plain reading, and tells whether they are a command.
fn is_command(rt: &(impl Abort + AllocGlobal), words: &[&str], list: usize) -> bool {
    let argv = check(rt, words);
    let answer = read(rt.alloc(), &argv);
    let names = named(rt, &answer);
    same_at(rt, names, plain(words), list);
    names.is_some()
}

#[test]
fn lists_at_random(rt: HostRuntime) {
    let mut numbers = Numbers { state: 1 };
    let mut commands: usize = 0;
    for list in 0..LISTS {
        let words = list_at(&rt, &mut numbers);
        if is_command(&rt, &words, list) {
            commands = commands.saturating_add(1);
        }
    }
    same_at(&rt, commands, COMMANDS, LISTS);
}
