// Checks the map file on standard input: says what is in it, or where and why it is refused, and whether writing it
// again gives the same bytes.
#![tactic(auto)]

ghost use Rattle.std.specs.Prelude.{◌≡◌, length, IfOk};
ghost use Rattle.map_file.specs.Maps.{encode_map};
ghost use Rattle.mapcheck.specs.Differences.{Compared};

use map_file::map::Map;
use map_file::{Fault, Heading, Placed, Record};
use network::leg::Leg;
use network::refusal::Refusal;
use std::alloc::Global;
use std::io::{BufWriter, Read, Write};
use std::{fmt, io};

// The longest input that is looked at.
const LIMIT: usize = 65_536;

// Printable bytes as text.
#[derive(Clone, Copy)]
struct Text<'a>(&'a [u8]);

impl fmt::Display for Text<'_> {
    fn fmt<W: fmt::Write>(&self, f: &mut fmt::Formatter<W>) -> fmt::Result {
        for byte in self.0 {
            f.write_char(char::from(*byte))?;
        }
        Ok(())
    }
}

// The offset of the first difference, which may be the end of one of the two; none where they are the same.
fn first_difference(a: &[u8], b: &[u8]) -> Option<usize>
    ensures { Compared a.now b.now result }
{
    let end = (a.len() != b.len()).then_some(a.len().min(b.len()));
    a.iter().zip(b).position(|(x, y)| x != y).or(end)
}

// A record's line. Stations and legs are numbered in file order, each from 0.
#[derive(Clone, Copy)]
struct Line<'a> {
    number: usize,
    stations: u8,
    placed: Placed<'a>,
}

impl fmt::Display for Line<'_> {
    fn fmt<W: fmt::Write>(&self, f: &mut fmt::Formatter<W>) -> fmt::Result {
        let number = self.number;
        let Placed { place, record } = self.placed;
        match record {
            Record::Station(name) => write!(f, "station {number} at {place}: {}", Text(name)),
            Record::Leg(leg) => {
                let number = number.saturating_sub(usize::from(self.stations));
                let Leg {
                    from,
                    to,
                    seconds,
                    points,
                    grade,
                } = leg;
                write!(
                    f,
                    "leg {number} at {place}: {from} to {to}, {seconds} s, {points} points, grade {grade}"
                )
            }
            Record::Notice(text) => write!(f, "notice at {place}: {}", Text(text)),
        }
    }
}

// What is in an accepted map. Its lines are printed as they come, and no value holds them all to be displayed.
fn print_map<W: Write>(out: &mut W, map: &Map<'_>) -> io::Result<()> {
    let Heading { stations, legs } = map.heading();
    let notices = map.notices().count();
    writeln!(
        out,
        "accepted: {stations} stations, {legs} legs, {notices} notices"
    )?;
    for (number, placed) in map.records().enumerate() {
        let line = Line {
            number,
            stations,
            placed,
        };
        writeln!(out, "{line}")?;
    }
    Ok(())
}

// A map written again: how many bytes that gives, and where they differ from the file.
#[derive(Clone, Copy)]
struct Rewritten {
    size: usize,
    difference: Option<usize>,
}

// Writes the map again into a buffer.
fn write_again(map: &Map<'_>, file: &[u8], copy: &mut [u8]) -> Result<Rewritten, Refusal>
    ensures size { IfOk result (λ again. again.size ≡ length (encode_map map.now)) }
    ensures compared { IfOk result (λ again. Compared (encode_map map.now) file.now again.difference) }
{
    let size = map.rewrite(copy)?;
    let difference = first_difference(&copy[..size], file);
    Ok(Rewritten { size, difference })
}

// Says whether the map, written again, is the file. It allocates, which no `Display` can.
fn print_rewritten<W: Write>(
    out: &mut W,
    heap: Global,
    map: &Map<'_>,
    file: &[u8],
) -> io::Result<()> {
    let mut copy = vec![in heap; 0u8; LIMIT]?;
    match write_again(map, file, &mut copy) {
        Ok(Rewritten { size, difference }) => match difference {
            None => writeln!(out, "written again: {size} bytes, the same"),
            Some(place) => writeln!(out, "written again: {size} bytes, another at {place}"),
        },
        Err(why) => writeln!(out, "not written again: {why}"),
    }
}

fn print_report<W: Write>(out: &mut W, heap: Global, input: &[u8]) -> io::Result<()> {
    match Map::accept(input) {
        Ok(map) => {
            print_map(out, &map)?;
            print_rewritten(out, heap, &map, input)
        }
        Err(Fault { why, place }) => {
            let number = why.number();
            writeln!(out, "refused {number} at {place}: {why}")
        }
    }
}

// Like the other program's but for what is printed: a crate for both would be longer than these lines.
fn main(rt: HostRuntime) -> io::Result<()> {
    let heap = rt.alloc();
    let mut input = Vec::new(heap);
    // one byte more than is looked at tells a longer input
    rt.stdin().take(LIMIT as u64 + 1).read_to_end(&mut input)?;
    let mut out = BufWriter::new(heap, rt.stdout())?;
    if input.len() > LIMIT {
        writeln!(out, "too long")?;
    } else {
        print_report(&mut out, heap, &input)?;
    }
    out.flush()
}
