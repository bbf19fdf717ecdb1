// The program over streams and a link in memory, which tell all that the theorem speaks of.
ghost use Rattle.std.specs.Prelude.{◌≡◌, [], IfOk};

use command_line::CommandLine;
use commands::{program, run};
use std::alloc::Global;
use std::collections::VecDeque;
use std::test::Fail;
use wiki_base::{Arg, Bytes, Memory};
use wiki_io::{Event, Fails, MemoryLink, MemorySink, MemorySource};

pub(crate) const INPUT: &[u8] = b"{\"do\":\"word\",\"kind\":\"name\",\"forms\":[\"Bern\"]}\n";

pub(crate) const REQUEST: &[u8] =
    b"POST /api HTTP/1.1\r\nHost: x\r\nContent-Length: 47\r\n\r\n{\"do\":\"reword\",\"word\":\"Bern\",\"forms\":[\"Berne\"]}";

pub(crate) const JOURNAL: &[u8] = b"{\"do\":\"reword\",\"forms\":[\"Berne\"],\"word\":\"Bern\"}\n";

pub(crate) const RESPONSE: &[u8] =
    b"HTTP/1.1 200 OK\r\nContent-Type: application/json\r\nContent-Length: 18\r\nConnection: close\r\n\r\n{\"done\":\"reword\"}\n";

// A command line that tells its words.
#[derive(Drop)]
pub(crate) struct ToldLine {
    pub(crate) words: Vec<Arg>,
}

impl CommandLine for ToldLine {
    ghost use Rattle.std.specs.Prelude.{Some};

    ghost words = { λ l. Some l.words.items };

    fn word(&self, alloc: Global, place: usize) -> Result<Option<Arg>, Memory> {
        match self.words.get(place) {
            Some(word) => Ok(Some(Arg::from_slice(alloc, word.as_slice())?)),
            None => Ok(None),
        }
    }
}

// A link over which one request comes on one connection.
fn link_of(alloc: Global) -> Result<MemoryLink, Fail>
    ensures { IfOk result (λ link. link.connections ≡ []) }
{
    let mut script = VecDeque::new(alloc);
    script.push_back(Event::Opened(1))?;
    script.push_back(Event::Piece(1, Bytes::from_slice(alloc, REQUEST)?))?;
    Ok(MemoryLink::new(alloc, script, Fails::none(alloc)))
}

// What a run left, as plain data.
#[derive(Drop)]
struct Left {
    status: u8,
    output: Vec<u8>,
    errors: Vec<u8>,
    sent: Vec<u8>,
}

// A run by the words of the line, or by the line, over this input.
fn left_by(alloc: Global, line: &ToldLine, by_line: bool, input: &[u8]) -> Result<Left, Fail> {
    let mut input = MemorySource::new(input.to_vec(alloc)?, Vec::new(alloc));
    let mut output = MemorySink::new(alloc, Vec::new(alloc));
    let mut errors = MemorySink::new(alloc, Vec::new(alloc));
    let mut link = link_of(alloc)?;
    let status = if by_line {
        program(alloc, line, &mut input, &mut output, &mut errors, &mut link)
    } else {
        run(
            alloc,
            &line.words,
            &mut input,
            &mut output,
            &mut errors,
            &mut link,
        )
    };
    left_in(alloc, status, &output, &errors, &link)
}

fn left_in(
    alloc: Global,
    status: u8,
    output: &MemorySink,
    errors: &MemorySink,
    link: &MemoryLink,
) -> Result<Left, Fail> {
    let mut sent = Vec::new(alloc);
    for (_, bytes) in link.sent() {
        sent.extend_from_slice(bytes.as_slice())?;
    }
    Ok(Left {
        status,
        output: output.bytes().to_vec(alloc)?,
        errors: errors.bytes().to_vec(alloc)?,
        sent,
    })
}

#[test]
fn the_lines_come_first_and_then_the_link(rt: HostRuntime) -> Result<(), Fail> {
    let alloc = rt.alloc();
    let mut words = Vec::new(alloc);
    words.push(Arg::from_slice(alloc, b"serve")?)?;
    words.push(Arg::from_slice(alloc, b"anywhere")?)?;
    let line = ToldLine { words };
    for by_line in &[true, false] {
        let left = left_by(alloc, &line, *by_line, INPUT)?;
        assert_eq!(rt; left.status, 0, "by the line: {by_line}");
        assert_eq!(rt; left.output.as_slice(), JOURNAL);
        assert!(rt; left.errors.is_empty());
        assert_eq!(rt; left.sent.as_slice(), RESPONSE);
    }
    Ok(())
}

const CITIES: &[u8] = b"{\"do\":\"word\",\"kind\":\"noun\",\"forms\":[\"city\"]}\n\
{\"do\":\"word\",\"kind\":\"noun\",\"forms\":[\"country\"]}\n\
{\"do\":\"word\",\"kind\":\"name\",\"forms\":[\"Bern\"]}\n\
{\"do\":\"add\",\"article\":\"city\",\"text\":\"No city is a country.\"}\n\
{\"do\":\"add\",\"article\":\"Bern\",\"text\":\"Bern is a city.\"}\n\
{\"do\":\"add\",\"article\":\"Bern\",\"text\":\"Bern is a country.\"}\n";

// The words of a command, and what it writes behind these lines.
const TOLD: [(&[&str], &str, u8); 8] = [
    (
        &["say"],
        "Every city is not a country.\nBern is a city.\n",
        0,
    ),
    (
        &["export"],
        "Prefix(:=<urn:acewiki:>)\nOntology(<urn:acewiki>\nDeclaration(Class(:city))\nDeclaration(Class(:country))\n\
Declaration(NamedIndividual(:Bern))\nSubClassOf(:city ObjectComplementOf(:country))\nClassAssertion(:city :Bern)\n)\n",
        0,
    ),
    (
        &["why", "Bern", "1"],
        "city 0 No city is a country.\nBern 0 Bern is a city.\nBern 1 Bern is a country.\n",
        0,
    ),
    (&["why", "Bern", "0"], "no case\n", 0),
    (&["why", "Bern", "1", "--name", "Bern"], "no case\n", 0),
    (&["why", "Bern"], "", 2),
    (&["say", "--name", "Bern"], "", 2),
    (&["export", "--events", "5"], "", 2),
];

// A file in which a thing is a city and a country, which no thing is.
const FILE: &[u8] = b"Prefix(:=<http://example.org/>)\nOntology(<http://example.org/o>\n\
DisjointClasses(:City :Country)\nClassAssertion(:City :Bern)\nClassAssertion(:Country :Bern)\n)\n";

// The word of a command, a file, and what is written of it on both outputs.
const OF_FILES: [(&str, &[u8], &str, &str); 4] = [
    ("check", FILE, "inconsistent\n", ""),
    ("check", b"Ontology(HasKey(", "Unsupported 9\n", ""),
    (
        "import",
        FILE,
        "{\"do\":\"word\",\"forms\":[\"City\",\"Cities\"],\"kind\":\"noun\"}\n\
{\"do\":\"word\",\"forms\":[\"Country\",\"Countries\"],\"kind\":\"noun\"}\n\
{\"do\":\"word\",\"forms\":[\"Bern\"],\"kind\":\"name\"}\n\
{\"article\":\"City\",\"do\":\"add\",\"text\":\"Every City is not a Country.\"}\n\
{\"article\":\"Bern\",\"do\":\"add\",\"text\":\"Bern is a City.\"}\n\
{\"article\":\"Bern\",\"do\":\"add\",\"text\":\"Bern is a Country.\"}\n",
        "",
    ),
    ("import", b"Ontology(HasKey(", "", "Unsupported 9\n"),
];

#[test]
fn a_file_is_checked_and_imported(rt: HostRuntime) -> Result<(), Fail> {
    let alloc = rt.alloc();
    for (word, file, output, errors) in OF_FILES.iter() {
        let mut words = Vec::new(alloc);
        words.push(Arg::from_slice(alloc, word.as_bytes())?)?;
        let left = left_by(alloc, &ToldLine { words }, false, file)?;
        assert_eq!(rt; left.status, 0);
        assert_eq!(rt; left.output.as_slice(), output.as_bytes());
        assert_eq!(rt; left.errors.as_slice(), errors.as_bytes());
    }
    Ok(())
}

#[test]
fn the_wiki_is_told_behind_the_lines(rt: HostRuntime) -> Result<(), Fail> {
    let alloc = rt.alloc();
    for (told, output, status) in TOLD.iter() {
        let mut words = Vec::new(alloc);
        for word in *told {
            words.push(Arg::from_slice(alloc, word.as_bytes())?)?;
        }
        let left = left_by(alloc, &ToldLine { words }, false, CITIES)?;
        assert_eq!(rt; left.status, *status, "status of {output}");
        assert_eq!(rt; left.output.as_slice(), output.as_bytes());
    }
    Ok(())
}
