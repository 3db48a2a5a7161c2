// The lines of a file: what they give together, and then each that asks for something.
use crate::cases::compare_case;
use crate::report::Report;
use figures::{Roof, Site};
use second_sets::{STORE_NUMBERS, put_set};
use std::alloc::{AllocError, Global};
use stored_lines::{Job, Line, UnreadableLine};
use worked_roofs::{Given, Tally};

fn is_line_end(byte: &u8) -> bool {
    *byte == b'\n'
}

// What the lines give together: the store of their sets, and the sites and the jobs for their roofs.
#[derive(Drop)]
struct Setting {
    store: [u32; STORE_NUMBERS],
    sites: Vec<Site>,
    jobs: Vec<Job>,
}

impl Setting {
    fn of(alloc: Global, text: &[u8]) -> Result<Setting, AllocError> {
        let mut setting = Setting {
            store: [0; STORE_NUMBERS],
            sites: Vec::new(alloc),
            jobs: Vec::new(alloc),
        };
        for line in text.split_inclusive(is_line_end) {
            match Line::given(line) {
                Some(Line::Set(set)) => put_set(&mut setting.store, &set).unwrap_or(()),
                Some(Line::Site(site)) => setting.sites.push(site)?,
                Some(Line::Job(job)) => setting.jobs.push(job)?,
                _ => {}
            }
        }
        Ok(setting)
    }

    // A roof at every site and in every job. A job is lent the first sets alone: behind them stand the numbers of the others, which no
    // call may look at.
    fn compare(&self, tally: &mut Tally, roof: &Roof) {
        for job in &self.jobs {
            let mut store = self.store;
            store[0] = job.sets;
            for site in &self.sites {
                let site = Site {
                    day: job.day,
                    ..*site
                };
                tally.compare(&Given {
                    store: &store,
                    site,
                    roof,
                });
            }
        }
    }
}

// Compares what every line asks for, under the store of all the sets; comments and empty lines ask for nothing. One that can't be read
// goes to standard error as it stands.
pub fn compare_lines(
    alloc: Global,
    errors: &impl Print,
    report: &mut Report,
    text: &[u8],
) -> Result<(), AllocError> {
    let setting = Setting::of(alloc, text)?;
    for line in text.split_inclusive(is_line_end) {
        if line.starts_with(b"#") || line.starts_with(b"\n") {
            continue;
        }
        let read = Line::read(line);
        report.lines.compare(read.is_err());
        match read {
            Ok(read) => compare_line(report, &setting, &read),
            // The counts show the line even where it can't be written.
            Err(UnreadableLine) => {
                let _ = errors.write_all(line);
            }
        }
    }
    Ok(())
}

fn compare_line(report: &mut Report, setting: &Setting, line: &Line) {
    match line {
        Line::Set(_) | Line::Site(_) | Line::Job(_) => {}
        Line::Compare(roof) => setting.compare(&mut report.roofs, roof),
        Line::Pitches(pitches) => report.roofs.compare_pitches(&setting.store, pitches),
        Line::Case(case) => compare_case(report, &setting.store, case),
    }
}
