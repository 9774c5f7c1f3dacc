use crate::report::Report;
use crate::sheet::{Kind, Sheet};
use std::io::Print;
use std::rt::Files;
use std::sync::Wait;
use std::thread::Threads;
use std::{fs, io};

/// The names in the folder, in order.
fn names(rt: &(impl Files + AllocGlobal + Clone + Drop), folder: &str) -> io::Result<Vec<String>> {
    let alloc = rt.alloc();
    let mut names = Vec::new(alloc);
    for entry in fs::read_dir(rt, folder)? {
        names.push(String::from_str(alloc, entry?.file_name())?)?;
    }
    names.sort()?;
    Ok(names)
}

/// Runs the cases of the file of that name in the folder, where it has some.
fn run_file(
    rt: &(impl Files + Print + AllocGlobal + Threads + Wait + Sync),
    folder: &str,
    name: &str,
    report: &mut Report,
) -> io::Result<()> {
    let alloc = rt.alloc();
    let Some((stem, ending)) = name.rsplit_once('.') else {
        return Ok(());
    };
    let Some(kind) = Kind::of(ending) else {
        return Ok(());
    };
    let file = format!(in alloc; "{stem}.json")?;
    let scenario = if kind.has_scenario() {
        fs::read_to_string(rt, format!(in alloc; "{folder}/{file}")?)?
    } else {
        String::new(alloc)
    };
    let place = format!(in alloc; "{folder}/{name}")?;
    let text = fs::read_to_string(rt, place.as_str())?;
    let sheet = Sheet {
        place: place.as_str(),
        kind,
        text: text.as_str(),
        file: file.as_str(),
        scenario: scenario.as_str(),
    };
    sheet.run(rt, report)
}

/// Runs the cases of each file of the folder.
fn run_folder(
    rt: &(impl Files + Print + AllocGlobal + Threads + Wait + Sync + Clone + Drop),
    folder: &str,
    report: &mut Report,
) -> io::Result<()> {
    for name in names(rt, folder)? {
        run_file(rt, folder, name.as_str(), report)?;
    }
    Ok(())
}

/// Runs the cases of each file of each folder in the folder.
pub fn run_folders(
    rt: &(impl Files + Print + AllocGlobal + Threads + Wait + Sync + Clone + Drop),
    folder: &str,
    report: &mut Report,
) -> io::Result<()> {
    for name in names(rt, folder)? {
        let place = format!(in rt.alloc(); "{folder}/{name}")?;
        run_folder(rt, place.as_str(), report)?;
    }
    Ok(())
}
