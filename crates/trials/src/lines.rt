// The input: lines, of which one that starts with `==` heads a section and names what is tried in it. Samples and opened markets need no
// line of their own. Each heading is written as it is.
use crate::tables::Working;
use crate::{changed, messages, openings, samples, tables};
use decimal::Instrument;
use octets::part_at;
use std::io::Result;

// Puts SOH for each `|`. Each byte is stored, so that the compiler takes many at once.
pub fn soh(s: &mut [u8]) {
    for b in s.iter_mut() {
        *b = if *b == b'|' { 1 } else { *b };
    }
}

// What is tried of the lines of a section: messages, tables with this in work, samples, changed reports, opened markets.
#[derive(Clone, Copy)]
enum Section {
    Messages,
    Tables(Working),
    Samples,
    Changed,
    Opened,
}

// What is tried of the lines behind a heading: the section, if its name is known, and the market of bonds or of equities.
#[derive(Clone, Copy)]
struct Trial {
    section: Option<Section>,
    of: Instrument,
}

// The section of a name.
fn section_of(name: &[u8]) -> Option<Section> {
    match name {
        b" messages" => Some(Section::Messages),
        b" tables" => Some(Section::Tables(Working::Immediate)),
        b" samples" => Some(Section::Samples),
        b" changed reports" => Some(Section::Changed),
        b" opened markets" => Some(Section::Opened),
        b" tables with a MinQty" => Some(Section::Tables(Working::Minimum)),
        b" tables with a Fill or Kill" => Some(Section::Tables(Working::FillOrKill)),
        b" tables with nothing in work" => Some(Section::Tables(Working::Nothing)),
        _ => None,
    }
}

// What a heading names: what stands behind `== equities:` is of equities, and what stands behind another `==` of bonds.
fn named(s: &[u8]) -> Trial {
    match s.strip_prefix(b"== equities:") {
        Some(name) => Trial {
            section: section_of(name),
            of: Instrument::Equities,
        },
        None => Trial {
            section: section_of(part_at(s, 2, s.len())),
            of: Instrument::Bonds,
        },
    }
}

// Begins a section; samples and opened markets are written at once.
fn begin(out: &impl Print, s: &[u8]) -> Result<Trial> {
    out.write_all(s)?;
    out.write_all(b"\n")?;
    let trial = named(s);
    match trial.section {
        Some(Section::Samples) => samples::all(out, trial.of)?,
        Some(Section::Opened) => openings::all(out, trial.of)?,
        _ => (),
    }
    Ok(trial)
}

// Tries a line of a section.
fn try_line(out: &impl Print, s: &[u8], trial: Trial) -> Result<()> {
    match trial.section {
        Some(Section::Messages) => messages::line(out, trial.of, s),
        Some(Section::Tables(working)) => tables::line(out, trial.of, s, working),
        Some(Section::Changed) => changed::line(out, trial.of, s),
        _ => Ok(()),
    }
}

// Takes a line, and gives what is tried of the next one.
fn line(out: &impl Print, s: &[u8], trial: Trial) -> Result<Trial> {
    if s.starts_with(b"==") {
        return begin(out, s);
    }
    try_line(out, s, trial)?;
    Ok(trial)
}

// The lines, one after another.
pub fn lines(out: &impl Print, s: &[u8]) -> Result<()> {
    let mut trial = Trial {
        section: None,
        of: Instrument::Bonds,
    };
    for ended in s.split_inclusive(|b| *b == b'\n') {
        trial = line(out, ended.strip_suffix(b"\n").unwrap_or(ended), trial)?;
    }
    Ok(())
}
