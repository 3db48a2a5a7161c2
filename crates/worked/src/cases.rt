// A case that a line gives whole, against the stored answer.
use crate::report::Report;
use stored_lines::{Case, Question};
use worked_roofs::{ExpectedRefusal, Given, Made};

pub fn compare_case(report: &mut Report, store: &[u32], case: &Case) {
    let code = case.code;
    let given = Given {
        store,
        site: case.site,
        roof: &case.roof,
    };
    let agrees = match case.question {
        Question::Refusal { other_code, number } => {
            let refusal = ExpectedRefusal {
                code,
                other_code,
                number,
            };
            return refusal.compare(&given, &mut report.figures);
        }
        Question::Outside { other_code, number } => {
            let refusal = ExpectedRefusal {
                code,
                other_code,
                number,
            };
            return report.roofs.compare_refused(&given, refusal);
        }
        // A place past the slice counts from its beginning again.
        Question::Number { place, figure } => {
            Made::new(&given, code).numbers[place % 128] == figure
        }
        Question::Load { station, figure } => given.load(code, station) == Ok(figure),
        Question::Overhang { slope, force } => given.overhang(slope) == Ok(force),
        Question::Guard { slope, force } => given.guard_force(slope) == Ok(force),
    };
    report.figures.compare(!agrees);
}
