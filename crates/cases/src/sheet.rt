use crate::expand::{numbered, repeated};
use crate::report::Report;
use crate::told::Told;
use std::io;
use std::io::Print;
use std::sync::Wait;
use std::thread::Threads;

/// What stands in a file of cases.
#[derive(Clone, Copy, PartialEq, Eq)]
pub enum Kind {
    /// The lines that `run` prints of the scenario beside it.
    Lines,
    /// Commands on the scenario beside it, and what each tells.
    Commands,
    /// A scenario, and then commands on it, written with repetitions.
    Whole,
    /// Rows of a selector and what `select` tells of it and the scenario beside it.
    Selectors,
    /// Rows of a key and what `lone` tells of it and the scenario beside it.
    Keys,
    /// Rows of a scenario and what is told of it on standard input.
    Scenarios,
}

impl Kind {
    /// What stands in files that end so, if they have cases.
    pub fn of(ending: &str) -> Option<Kind> {
        match ending {
            "out" => Some(Kind::Lines),
            "run" => Some(Kind::Commands),
            "case" => Some(Kind::Whole),
            "selectors" => Some(Kind::Selectors),
            "keys" => Some(Kind::Keys),
            "scenarios" => Some(Kind::Scenarios),
            _ => None,
        }
    }

    /// Whether the cases are about the scenario beside the file.
    pub fn has_scenario(self) -> bool {
        match self {
            Kind::Lines | Kind::Commands | Kind::Selectors | Kind::Keys => true,
            Kind::Whole | Kind::Scenarios => false,
        }
    }
}

/// What is compared of what a command tells and of what is wanted: neither has a line feed at its end; where the wanted text
/// ends with a line `..`, only as much as stands before it.
fn comparable<'a>(told: &'a str, wanted: &'a str) -> (&'a str, &'a str) {
    let told = told.strip_suffix('\n').unwrap_or(told);
    let wanted = wanted.strip_suffix('\n').unwrap_or(wanted);
    match wanted.strip_suffix("\n..") {
        Some(wanted) => (told.get(..wanted.len()).unwrap_or(told), wanted),
        None => (told, wanted),
    }
}

/// A file of cases.
#[derive(Drop)]
pub struct Sheet<'a> {
    /// The file's name with its folder.
    pub place: &'a str,
    pub kind: Kind,
    pub text: &'a str,
    /// The name and the text of the scenario beside the file.
    pub file: &'a str,
    pub scenario: &'a str,
}

impl Sheet<'_> {
    /// Runs the program on each case of the file, and notes in the report whether it tells what is wanted.
    pub fn run(
        &self,
        rt: &(impl Print + AllocGlobal + Threads + Wait + Sync),
        report: &mut Report,
    ) -> io::Result<()> {
        match self.kind {
            Kind::Lines => self.run_lines(rt, report),
            Kind::Commands => self.run_commands(rt, report, self.scenario, self.text),
            Kind::Whole => self.run_whole(rt, report),
            Kind::Selectors | Kind::Keys | Kind::Scenarios => self.run_rows(rt, report),
        }
    }

    fn run_lines(
        &self,
        rt: &(impl Print + AllocGlobal + Threads + Wait + Sync),
        report: &mut Report,
    ) -> io::Result<()> {
        let alloc = rt.alloc();
        let told = Told::new(
            rt,
            alloc,
            &["jmsrun", "run", self.file],
            self.file,
            self.scenario,
        );
        report.note(rt, self.place, self.text, told.lines(alloc)?.as_str())
    }

    /// Each command is a line that begins with `$ ` and has the words with `|` between them; what it tells follows.
    fn run_commands(
        &self,
        rt: &(impl Print + AllocGlobal + Threads + Wait + Sync),
        report: &mut Report,
        scenario: &str,
        text: &str,
    ) -> io::Result<()> {
        for command in text.split("\n$ ") {
            let command = command.strip_prefix("$ ").unwrap_or(command);
            let (words, wanted) = command.split_once('\n').unwrap_or((command, ""));
            self.run_command(rt, report, scenario, words, wanted)?;
        }
        Ok(())
    }

    fn run_command(
        &self,
        rt: &(impl Print + AllocGlobal + Threads + Wait + Sync),
        report: &mut Report,
        scenario: &str,
        words: &str,
        wanted: &str,
    ) -> io::Result<()> {
        let alloc = rt.alloc();
        let place = self.place;
        let place = format!(in alloc; "{place}, {words}")?;
        let words: Vec<&str> = words.split('|').collect(alloc)?;
        let told = Told::new(rt, alloc, &words, self.file, scenario).lines(alloc)?;
        let (told, wanted) = comparable(told.as_str(), wanted);
        report.note(rt, place.as_str(), wanted, told)
    }

    fn run_whole(
        &self,
        rt: &(impl Print + AllocGlobal + Threads + Wait + Sync),
        report: &mut Report,
    ) -> io::Result<()> {
        let alloc = rt.alloc();
        let text = repeated(alloc, self.text)?;
        let text = numbered(alloc, text.as_str())?;
        match text.as_str().split_once("\n$ ") {
            Some((scenario, commands)) => self.run_commands(rt, report, scenario, commands),
            None => report.note(rt, self.place, "a command", "none"),
        }
    }

    /// Each row has ` => ` between its parts. Empty lines, and those that begin with `# `, are no rows.
    fn run_rows(
        &self,
        rt: &(impl Print + AllocGlobal + Threads + Wait + Sync),
        report: &mut Report,
    ) -> io::Result<()> {
        for row in self.text.split_terminator('\n') {
            if row.is_empty() || row.starts_with("# ") {
                continue;
            }
            let (left, wanted) = row.split_once(" => ").unwrap_or((row, ""));
            self.run_row(rt, report, left, wanted)?;
        }
        Ok(())
    }

    fn run_row(
        &self,
        rt: &(impl Print + AllocGlobal + Threads + Wait + Sync),
        report: &mut Report,
        left: &str,
        wanted: &str,
    ) -> io::Result<()> {
        let alloc = rt.alloc();
        let place = self.place;
        let place = format!(in alloc; "{place}, {left}")?;
        let left = repeated(alloc, left)?;
        let told = self.told(rt, alloc, left.as_str()).row(alloc)?;
        report.note(rt, place.as_str(), wanted, told.as_str())
    }

    /// What the program tells of the left part of a row.
    fn told<T: Threads + Wait + Sync>(
        &self,
        rt: &T,
        alloc: std::alloc::Global,
        left: &str,
    ) -> Told {
        let (file, scenario) = (self.file, self.scenario);
        match self.kind {
            Kind::Selectors => Told::new(
                rt,
                alloc,
                &["jmsrun", "select", left, file],
                file,
                scenario,
            ),
            Kind::Keys => Told::new(rt, alloc, &["jmsrun", "lone", file, left], file, scenario),
            _ => Told::new(rt, alloc, &["jmsrun"], file, left),
        }
    }
}
